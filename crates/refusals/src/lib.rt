// The refusals, in the documents' order.
#![tactic(auto)]

pub mod many;
pub mod report;

ghost use Rattle.std.specs.Prelude.{◌≡◌, ℕ, ◌*◌, ◌≤◌, leb, length, OnOk};
ghost use Rattle.refusal.specs.Numbers.{number_of};
ghost use Rattle.tables.specs.Unsound.{elem};
ghost use Rattle.paper.specs.Cache.{Counters};
ghost use Rattle.paper.specs.Lent.{Ask, opening, calling, between, unfit, limit_outside, over, refusal};
ghost use Rattle.tables.specs.Index.{heads_length, Blank, Indexed};
ghost use Rattle.parts.specs.Rep.{numbers_of};
ghost use Rattle.refusals.specs.Given.{counters_of, lent};
ghost use Rattle.refusals.specs.Checks.{sizes, wrong_lengths, tables_refusal, state_refusal};
ghost use Rattle.tables.specs.Rows.{table_bytes};

use checks::index;
use parts::{BoxRecord, limit};
use refusal::Refusal;
use tables::{SourceAddress, row};

// Whether `s` is a power of two from 64 to 4,096.
pub(crate) fn block_size(s: usize) -> bool
    ensures { result ≡ elem s sizes }
{
    [64, 128, 256, 512, 1024, 2048, 4096].contains(&s)
}

// Whether `x` is from 1 to `most`.
pub(crate) fn within(x: usize, most: usize) -> bool
    ensures { result ≡ between 1 most x }
{
    1 <= x && x <= most
}

// Refusal 1: a number of the box outside its set.
pub fn numbers_unfit(b: BoxRecord) -> bool
    ensures { result ≡ unfit (numbers_of b) }
{
    if !block_size(b.size) {
        return true;
    }
    if !within(b.blocks, 65536) {
        return true;
    }
    if !within(b.rows, 1024) {
        return true;
    }
    !within(b.slots, 256)
}

// Refusal 2, of the four buffers: a length that isn't the box's.
pub(crate) fn lengths_wrong(
    b: BoxRecord,
    disk: usize,
    flash: usize,
    addresses: usize,
    blocks: usize,
) -> bool
    requires { (b.size ≤ 4096) × (b.blocks ≤ 65536) × (b.rows ≤ 1024) × (b.slots ≤ 256) }
    ensures { result ≡ wrong_lengths b disk flash addresses blocks }
{
    if disk != b.blocks * b.size {
        return true;
    }
    if flash != b.slots * b.size {
        return true;
    }
    if addresses != b.rows * row::BYTES {
        return true;
    }
    blocks != b.slots * row::BYTES
}

// Refusal 12: a limit outside its range.
pub fn limit_unfit(b: BoxRecord) -> bool
    ensures { result ≡ limit_outside (numbers_of b) }
{
    !within(b.limit, b.rows)
}

// Refusals 1, 12 and 2: what an opening is refused with.
pub fn of_opening(
    b: BoxRecord,
    disk: &[u8],
    flash: &[u8],
    addresses: &[u8],
    blocks: &[u8],
) -> Result<(), Refusal>
    ensures { (k : Counters) → number_of result ≡ refusal (numbers_of b) (lent b disk.now flash.now addresses.now
        blocks.now k) opening }
{
    if numbers_unfit(b) {
        return Err(Refusal::Outside);
    }
    if limit_unfit(b) {
        return Err(Refusal::BadLimit);
    }
    if lengths_wrong(b, disk.len(), flash.len(), addresses.len(), blocks.len()) {
        return Err(Refusal::WrongLength);
    }
    Ok(())
}

// Refusals 6, 7, 8 and 13, of tables with the box's lengths. Where none applies, `heads`, 0 everywhere at first, is the index of the block rows.
pub fn of_tables(
    b: BoxRecord,
    addresses: &[u8],
    blocks: &[u8],
    heads: &mut [u16],
) -> Result<(), Refusal>
    requires blocks_bound { (b.blocks ≤ 65536) × (b.rows ≤ 1024) × (b.slots ≤ 256) × (length addresses.now ≡ table_bytes b.rows)
        × (length blocks.now ≡ table_bytes b.slots) }
    requires blank { Blank heads.old }
    ensures value { number_of result ≡ tables_refusal b addresses.now blocks.now }
    ensures indexed { OnOk result (Indexed b.slots blocks.now heads.new) }
    ensures heads_len { length heads.new ≡ heads_length }
{
    checks::sound::tables_refused(addresses, b.rows, b.held, b.blocks, blocks, b.slots, heads)?;
    if limit::excess_row(b, addresses) < b.held {
        return Err(Refusal::TooDirty);
    }
    Ok(())
}

// Refusal 9: a counter above 2 to the power 63.
pub fn counters_over(c: counters::Counters) -> bool
    ensures { result ≡ over (counters_of c) }
{
    if 9223372036854775808 < c.reads {
        return true;
    }
    if 9223372036854775808 < c.hits {
        return true;
    }
    if 9223372036854775808 < c.flash {
        return true;
    }
    9223372036854775808 < c.primary
}

// Refusal 3: an address outside the disk.
pub(crate) fn address_outside(b: BoxRecord, a: SourceAddress) -> bool
    ensures { result ≡ leb b.blocks a.0 }
{
    let n = a.0;
    b.blocks <= n as usize
}

// Refusals 6, 7, 8, 13 and 9, of tables with the box's lengths. Where none applies, `heads` is the index of the block rows.
pub(crate) fn of_state(
    b: BoxRecord,
    addresses: &[u8],
    blocks: &[u8],
    c: counters::Counters,
    heads: &mut [u16],
) -> Result<(), Refusal>
    requires blocks_bound { (b.blocks ≤ 65536) × (b.rows ≤ 1024) × (b.slots ≤ 256) × (length addresses.now ≡ table_bytes b.rows)
        × (length blocks.now ≡ table_bytes b.slots) }
    requires blank { Blank heads.old }
    ensures value { number_of result ≡ state_refusal b addresses.now blocks.now (counters_of c) }
    ensures indexed { OnOk result (Indexed b.slots blocks.now heads.new) }
    ensures heads_len { length heads.new ≡ heads_length }
{
    of_tables(b, addresses, blocks, heads)?;
    if counters_over(c) {
        return Err(Refusal::CounterFull);
    }
    Ok(())
}

// The refusal of a read or a write. Where there is none, `heads` is the index of the block rows.
pub fn of_access(
    b: BoxRecord,
    a: SourceAddress,
    disk: &[u8],
    flash: &[u8],
    addresses: &[u8],
    blocks: &[u8],
    c: counters::Counters,
    block: &[u8],
    heads: &mut [u16],
) -> Result<(), Refusal>
    requires { Blank heads.old }
    ensures value { number_of result ≡ refusal (numbers_of b) (lent b disk.now flash.now addresses.now blocks.now (counters_of c))
        (calling (Ask.read a.0 block.now)) }
    ensures indexed { OnOk result (Indexed b.slots blocks.now heads.new) }
{
    of_opening(b, disk, flash, addresses, blocks)?;
    if block.len() != b.size {
        return Err(Refusal::WrongLength);
    }
    if address_outside(b, a) {
        return Err(Refusal::NoAddress);
    }
    of_state(b, addresses, blocks, c, heads)
}

// The refusal of a look.
pub fn of_look(
    b: BoxRecord,
    a: SourceAddress,
    disk: &[u8],
    flash: &[u8],
    addresses: &[u8],
    blocks: &[u8],
) -> Result<(), Refusal>
    ensures { (k : Counters) → number_of result ≡ refusal (numbers_of b) (lent b disk.now flash.now addresses.now
        blocks.now k)
        (calling (Ask.look a.0)) }
{
    of_opening(b, disk, flash, addresses, blocks)?;
    if address_outside(b, a) {
        return Err(Refusal::NoAddress);
    }
    let mut heads = [0u16; index::ENTRIES];
    of_tables(b, addresses, blocks, &mut heads)
}

// The refusal of a flush, of however many rows. Where there is none, `heads` is the index of the block rows.
pub fn of_flush(
    b: BoxRecord,
    disk: &[u8],
    flash: &[u8],
    addresses: &[u8],
    blocks: &[u8],
    c: counters::Counters,
    heads: &mut [u16],
) -> Result<(), Refusal>
    requires { Blank heads.old }
    ensures by_index { (k : ℕ)
        → number_of result ≡ refusal (numbers_of b) (lent b disk.now flash.now addresses.now blocks.now (counters_of c))
        (calling (Ask.flush k)) }
    ensures indexed { OnOk result (Indexed b.slots blocks.now heads.new) }
{
    of_opening(b, disk, flash, addresses, blocks)?;
    of_state(b, addresses, blocks, c, heads)
}
