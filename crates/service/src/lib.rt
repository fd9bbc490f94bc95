// The service that C calls: numbers and byte slices. Each call reads the box record and the counters in the state's bytes,
// does the cache's call, and writes what it tells into the state and the answer.
// The exported functions give refusal numbers, as the C interface says; for its sake disk, flash, addresses and blocks are separate parameters.
#![tactic(auto)]

pub mod warm;

ghost use Rattle.std.specs.Prelude.{◌≡◌, true};
ghost use Rattle.std.proofs.Math.Option.{Option};
ghost use Rattle.paper.specs.Lent.{Ask, call};
ghost use Rattle.parts.specs.Rep.{numbers_of};
ghost use Rattle.paper.specs.Reports.{manager, desk};
ghost use Rattle.policy.specs.Contract.{ask_of};
ghost use Rattle.reports.specs.Contract.{reader_of};
ghost use Rattle.fields.specs.Fields.{record_in, fitting};
ghost use Rattle.service.specs.Left.{lent_in, leaving, leaves, leaves_many, leaves_open, leaves_look, leaves_report, Shows, leaves_scores};

use reports::Reader;
use serve::Write;
use tables::SourceAddress;

// Reads the block at `address` into `block`.
#[tactic(auto, unfolding(fields::specs::Fields::fitting, crate::specs::Left::leaves, crate::specs::Left::told_in))]
#[unsafe(no_mangle)]
pub extern "C" fn mindavehu_read(
    state: &mut [u8],
    address: u32,
    disk: &mut [u8],
    flash: &mut [u8],
    addresses: &mut [u8],
    blocks: &mut [u8],
    block: &mut [u8],
    answer: &mut [u8],
) -> u32
    ensures { leaving result state.new disk.new flash.new addresses.new blocks.new
        (Option.some block.new) answer.new
        ≡ leaves (Ask.read address block.old) state.old disk.old flash.old addresses.old
        blocks.old answer.old }
{
    if !fields::fit(24, state, answer) {
        return 2;
    }
    let b = fields::record_in(state);
    let c = fields::counters_in(state);
    let o = policy::calls::read(
        b,
        SourceAddress(address),
        disk,
        flash,
        addresses,
        blocks,
        c,
        block,
    );
    fields::write_outcome(state, answer, o)
}

// Reads the block at each address of `asked`, in turn, into its place of `buffer`.
#[tactic(auto, unfolding(fields::specs::Fields::fitting, crate::specs::Left::leaves_many, crate::specs::Left::told_many_in))]
#[unsafe(no_mangle)]
pub extern "C" fn mindavehu_read_many(
    state: &mut [u8],
    asked: &[u32],
    disk: &mut [u8],
    flash: &mut [u8],
    addresses: &mut [u8],
    blocks: &mut [u8],
    buffer: &mut [u8],
    answer: &mut [u8],
) -> u32
    ensures { record {
      number = result;
      state = state.new;
      disk = disk.new;
      flash = flash.new;
      addresses = addresses.new;
      blocks = blocks.new;
      buffer = buffer.new;
      answer = answer.new;
    }
        ≡ leaves_many asked.now buffer.old state.old disk.old flash.old addresses.old
        blocks.old answer.old }
{
    if !fields::fit(32, state, answer) {
        return 2;
    }
    let b = fields::record_in(state);
    let c = fields::counters_in(state);
    let o = policy::many::read_many(b, asked, disk, flash, addresses, blocks, c, buffer);
    fields::write_many(state, answer, o)
}

// Writes `block` by a seat, by the kind of the write.
#[tactic(auto, unfolding(fields::specs::Fields::fitting, crate::specs::Left::leaves, crate::specs::Left::told_in))]
fn write(
    kind: Write,
    state: &mut [u8],
    address: u32,
    seat: u16,
    disk: &mut [u8],
    flash: &mut [u8],
    addresses: &mut [u8],
    blocks: &mut [u8],
    block: &[u8],
    answer: &mut [u8],
) -> u32
    ensures { leaving result state.new disk.new flash.new addresses.new blocks.new
        (Option.some block.now) answer.new
        ≡ leaves (ask_of kind address block.now seat) state.old disk.old flash.old addresses.old
        blocks.old answer.old }
{
    if !fields::fit(24, state, answer) {
        return 2;
    }
    let b = fields::record_in(state);
    let c = fields::counters_in(state);
    let o = policy::calls::write(
        kind,
        b,
        SourceAddress(address),
        seat,
        disk,
        flash,
        addresses,
        blocks,
        c,
        block,
    );
    fields::write_outcome(state, answer, o)
}

// Writes `block` to the disk and into the cache.
#[unsafe(no_mangle)]
pub extern "C" fn mindavehu_write_through(
    state: &mut [u8],
    address: u32,
    seat: u16,
    disk: &mut [u8],
    flash: &mut [u8],
    addresses: &mut [u8],
    blocks: &mut [u8],
    block: &[u8],
    answer: &mut [u8],
) -> u32
    ensures { leaving result state.new disk.new flash.new addresses.new blocks.new
        (Option.some block.now) answer.new
        ≡ leaves (Ask.through address block.now seat) state.old disk.old flash.old addresses.old
        blocks.old answer.old }
{
    write(
        Write::Through,
        state,
        address,
        seat,
        disk,
        flash,
        addresses,
        blocks,
        block,
        answer,
    )
}

// Writes `block` into the cache; the disk gets it later.
#[unsafe(no_mangle)]
pub extern "C" fn mindavehu_write_back(
    state: &mut [u8],
    address: u32,
    seat: u16,
    disk: &mut [u8],
    flash: &mut [u8],
    addresses: &mut [u8],
    blocks: &mut [u8],
    block: &[u8],
    answer: &mut [u8],
) -> u32
    ensures { leaving result state.new disk.new flash.new addresses.new blocks.new
        (Option.some block.now) answer.new
        ≡ leaves (Ask.back address block.now seat) state.old disk.old flash.old addresses.old
        blocks.old answer.old }
{
    write(
        Write::Back,
        state,
        address,
        seat,
        disk,
        flash,
        addresses,
        blocks,
        block,
        answer,
    )
}

// Writes `block` to the disk, and takes the address out of the cache.
#[unsafe(no_mangle)]
pub extern "C" fn mindavehu_write_invalidate(
    state: &mut [u8],
    address: u32,
    seat: u16,
    disk: &mut [u8],
    flash: &mut [u8],
    addresses: &mut [u8],
    blocks: &mut [u8],
    block: &[u8],
    answer: &mut [u8],
) -> u32
    ensures { leaving result state.new disk.new flash.new addresses.new blocks.new
        (Option.some block.now) answer.new
        ≡ leaves (Ask.invalidate address block.now seat) state.old disk.old flash.old addresses.old
        blocks.old answer.old }
{
    write(
        Write::Invalidate,
        state,
        address,
        seat,
        disk,
        flash,
        addresses,
        blocks,
        block,
        answer,
    )
}

// Copies the blocks of at most `most` dirty rows, oldest first, to the disk; the answer's primary writes say of how many.
#[tactic(auto, unfolding(fields::specs::Fields::fitting, crate::specs::Left::leaves, crate::specs::Left::told_in))]
#[unsafe(no_mangle)]
pub extern "C" fn mindavehu_flush_some(
    state: &mut [u8],
    most: usize,
    disk: &mut [u8],
    flash: &[u8],
    addresses: &mut [u8],
    blocks: &[u8],
    answer: &mut [u8],
) -> u32
    ensures { leaving result state.new disk.new flash.now addresses.new blocks.now
        Option.none answer.new
        ≡ leaves (Ask.flush most) state.old disk.old flash.now addresses.old blocks.now
        answer.old }
{
    if !fields::fit(24, state, answer) {
        return 2;
    }
    let b = fields::record_in(state);
    let c = fields::counters_in(state);
    let o = policy::calls::flush_some(b, most, disk, flash, addresses, blocks, c);
    fields::write_outcome(state, answer, o)
}

// Copies each block that is newer in the flash to the disk.
#[tactic(auto, unfolding(fields::specs::Fields::fitting, crate::specs::Left::leaves))]
#[unsafe(no_mangle)]
pub extern "C" fn mindavehu_flush(
    state: &mut [u8],
    disk: &mut [u8],
    flash: &[u8],
    addresses: &mut [u8],
    blocks: &[u8],
    answer: &mut [u8],
) -> u32
    ensures { leaving result state.new disk.new flash.now addresses.new blocks.now
        Option.none answer.new
        ≡ leaves (Ask.flush (record_in state.old).rows) state.old disk.old flash.now addresses.old
        blocks.now answer.old }
{
    if !fields::fit(24, state, answer) {
        return 2;
    }
    let b = fields::record_in(state);
    mindavehu_flush_some(state, b.rows, disk, flash, addresses, blocks, answer)
}

// Tells where the block at `address` is. Nothing is moved or counted.
#[tactic(auto, unfolding(fields::specs::Fields::fitting, crate::specs::Left::leaves_look))]
#[unsafe(no_mangle)]
pub extern "C" fn mindavehu_look(
    state: &[u8],
    address: u32,
    disk: &[u8],
    flash: &[u8],
    addresses: &[u8],
    blocks: &[u8],
    answer: &mut [u8],
) -> u32
    ensures answer_after { record { number = result; answer = answer.new }
        ≡ leaves_look address state.now disk.now flash.now addresses.now blocks.now
        answer.old }
    ensures shows { fitting 24 state.now answer.old ≡ true
        → Shows result answer.new (lent_in state.now disk.now flash.now addresses.now blocks.now)
        (call (numbers_of (record_in state.now)) (lent_in state.now disk.now flash.now addresses.now
        blocks.now) (Ask.look address)) }
{
    if !fields::fit(24, state, answer) {
        return 2;
    }
    let b = fields::record_in(state);
    let a = SourceAddress(address);
    let p = look::place_of(b, a, disk, flash, addresses, blocks);
    fields::write_place(answer, b.size, a, p)
}

// The report of the held rows, oldest first, in `report`; nothing else is written.
#[tactic(auto, unfolding(crate::specs::Left::leaves_report))]
fn held_report(
    reader: Reader,
    state: &[u8],
    disk: &[u8],
    flash: &[u8],
    addresses: &[u8],
    blocks: &[u8],
    report: &mut [u8],
) -> u32
    ensures { record { number = result; report = report.new }
        ≡ leaves_report (reader_of reader) state.now disk.now flash.now addresses.now blocks.now
        report.old }
{
    if state.len() != fields::STATE {
        return 2;
    }
    let b = fields::record_in(state);
    let told = reports::report(reader, b, disk, flash, addresses, blocks, report);
    refusal::number(&told)
}

// The manager's report: address, dirty byte and seat of each held row.
#[unsafe(no_mangle)]
pub extern "C" fn mindavehu_manager_report(
    state: &[u8],
    disk: &[u8],
    flash: &[u8],
    addresses: &[u8],
    blocks: &[u8],
    report: &mut [u8],
) -> u32
    ensures { record { number = result; report = report.new }
        ≡ leaves_report manager state.now disk.now flash.now addresses.now blocks.now
        report.old }
{
    held_report(
        Reader::Manager,
        state,
        disk,
        flash,
        addresses,
        blocks,
        report,
    )
}

// The desk's report: address and dirty byte of each held row.
#[unsafe(no_mangle)]
pub extern "C" fn mindavehu_desk_report(
    state: &[u8],
    disk: &[u8],
    flash: &[u8],
    addresses: &[u8],
    blocks: &[u8],
    report: &mut [u8],
) -> u32
    ensures { record { number = result; report = report.new }
        ≡ leaves_report desk state.now disk.now flash.now addresses.now blocks.now
        report.old }
{
    held_report(Reader::Desk, state, disk, flash, addresses, blocks, report)
}

// Opens a box of the numbers and the limit in `state` and the label `label`: the tables become fresh, n and the counters 0; disk and flash keep their bytes.
#[tactic(auto, unfolding(crate::specs::Left::leaves_open, crate::specs::Left::opened_in))]
#[unsafe(no_mangle)]
pub extern "C" fn mindavehu_open(
    state: &mut [u8],
    label: &[u8],
    disk: &[u8],
    flash: &[u8],
    addresses: &mut [u8],
    blocks: &mut [u8],
) -> u32
    ensures { record { number = result; state = state.new; addresses = addresses.new; blocks = blocks.new }
        ≡ leaves_open label.now state.old disk.now flash.now addresses.old blocks.old }
{
    if state.len() != fields::STATE {
        return 2;
    }
    let b = fields::record_in(state);
    let c = fields::counters_in(state);
    let o = open::open(
        b.size, b.blocks, b.rows, b.slots, b.limit, label, disk, flash, addresses, blocks, c,
    );
    fields::write_opening(state, o)
}

// Counts over all lists of `k` reads, from a fresh box of these numbers and this label over `disk`, how many have 0, 1, up to 8 hits, into `counts`.
#[tactic(auto, unfolding(crate::specs::Left::leaves_scores))]
#[unsafe(no_mangle)]
pub extern "C" fn mindavehu_scores(
    size: usize,
    blocks: usize,
    rows: usize,
    slots: usize,
    limit: usize,
    label: &[u8],
    disk: &[u8],
    k: usize,
    counts: &mut [u8],
) -> u32
    ensures { record { number = result; counts = counts.new }
        ≡ leaves_scores (record { B = size; P = blocks; m = rows; d = slots; label = label.now; t = limit }) disk.now k
        counts.old }
{
    let told = exam::scores(
        size,
        blocks,
        rows,
        slots,
        limit,
        label,
        disk,
        k,
        counts.len(),
    );
    fields::put_counts(counts, exam::told_counts(&told));
    refusal::number(&told)
}
