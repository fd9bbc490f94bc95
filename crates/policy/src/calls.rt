// The calls: each takes any numbers, any slices and any counters.
ghost use Rattle.std.specs.Prelude.{◌≡◌, cond, ◌+◌, ◌<◌, ◌^◌, Ok};
ghost use Rattle.std.proofs.Math.Option.{Option};
ghost use Rattle.tables.specs.Index.{Indexed};
ghost use Rattle.parts.specs.Rep.{numbers_of, with_held};
ghost use Rattle.paper.specs.Cache.{hit, miss, same_block, new_block};
ghost use Rattle.paper.specs.Lent.{Ask, calling, refusal};
ghost use Rattle.counters.specs.Added.{added};
ghost use Rattle.refusals.specs.Given.{lent, counters_of};
ghost use Rattle.policy.specs.Contract.{told, called, word_of, ask_of};

use crate::{Answered, Word};
use checks::index;
use counters::Counters;
use outcome::{Outcome, refused};
use parts::BoxRecord;
use serve::{Served, Write};
use tables::SourceAddress;

// What a served call gives back: its word, what it told, and the counters with its own counts.
fn answered(
    b: BoxRecord,
    w: Word,
    s: Served,
    c: Counters,
    reads: u64,
    hits: u64,
) -> Outcome<Answered, BoxRecord>
    requires { (c.reads + reads < 2 ^ 64) × (c.hits + hits < 2 ^ 64) × (c.flash + s.flashed < 2 ^ 64) × (c.primary + s.primary < 2 ^ 64) }
    ensures { result ≡ record {
      answer = Ok (record { word = w; flashed = s.flashed; primary = s.primary });
      box_record = with_held b s.held;
      counters = added c reads hits s.flashed s.primary;
    } }
{
    let k = counters::counted(c, reads, hits, s.flashed as u64, s.primary as u64);
    let answer = Answered {
        word: w,
        flashed: s.flashed,
        primary: s.primary,
    };
    Outcome {
        answer: Ok(answer),
        box_record: parts::with_held(b, s.held),
        counters: k,
    }
}

// The word of a read.
pub fn read_word(yes: bool) -> Word
    ensures { word_of result ≡ cond yes hit miss }
{
    if yes { Word::Hit } else { Word::Miss }
}

// The word of a write.
pub fn write_word(yes: bool) -> Word
    ensures { word_of result ≡ cond yes same_block new_block }
{
    if yes { Word::Same } else { Word::New }
}

// 1 for a hit.
pub fn one_if(yes: bool) -> u64
    ensures { result ≡ cond yes 1 0 }
{
    u64::from(yes)
}

// Read `a` into the lent block.
pub fn read(
    b: BoxRecord,
    a: SourceAddress,
    disk: &mut [u8],
    flash: &mut [u8],
    addresses: &mut [u8],
    blocks: &mut [u8],
    c: Counters,
    block: &mut [u8],
) -> Outcome<Answered, BoxRecord>
    ensures { told result disk.new flash.new addresses.new blocks.new (Option.some block.new)
        ≡ called b (lent b disk.old flash.old addresses.old blocks.old (counters_of c))
        (Ask.read a.0 block.old) }
{
    let mut heads = [0u16; index::ENTRIES];
    if let Err(r) = refusals::of_access(
        b, a, disk, flash, addresses, blocks, c, block, &mut heads,
    ) {
        return refused(r, b, c);
    }
    let s = serve::serve_read(b, a, disk, flash, addresses, blocks, block, &heads);
    answered(b, read_word(s.yes), s, c, 1, one_if(s.yes))
}

// Write of any kind by a seat: through, the lent block goes to the disk and into the cache; back, into the cache, and to the disk later;
// invalidate, to the disk, and its address out of the cache.
pub fn write(
    kind: Write,
    b: BoxRecord,
    a: SourceAddress,
    seat: u16,
    disk: &mut [u8],
    flash: &mut [u8],
    addresses: &mut [u8],
    blocks: &mut [u8],
    c: Counters,
    block: &[u8],
) -> Outcome<Answered, BoxRecord>
    ensures { told result disk.new flash.new addresses.new blocks.new (Option.some block.now)
        ≡ called b (lent b disk.old flash.old addresses.old blocks.old (counters_of c))
        (ask_of kind a.0 block.now seat) }
{
    let mut heads = [0u16; index::ENTRIES];
    if let Err(r) = refusals::of_access(
        b, a, disk, flash, addresses, blocks, c, block, &mut heads,
    ) {
        return refused(r, b, c);
    }
    let s = serve::serve_write(
        kind, b, a, seat, disk, flash, addresses, blocks, block, &heads,
    );
    answered(b, write_word(s.yes), s, c, 0, 0)
}

// A flush of at most `k` that isn't refused; `heads` is the index of the block rows.
pub fn flush_served(
    b: BoxRecord,
    k: usize,
    disk: &mut [u8],
    flash: &[u8],
    addresses: &mut [u8],
    blocks: &[u8],
    c: Counters,
    heads: &[u16],
) -> Outcome<Answered, BoxRecord>
    requires k_value { refusal (numbers_of b) (lent b disk.old flash.now addresses.old blocks.now (counters_of c)) (calling (Ask.flush k)) ≡ 0 }
    requires indexed { Indexed b.slots blocks.now heads.now }
    ensures { told result disk.new flash.now addresses.new blocks.now Option.none
        ≡ called b (lent b disk.old flash.now addresses.old blocks.now (counters_of c)) (Ask.flush k) }
{
    let s = serve::serve_flush(b, k, disk, flash, addresses, blocks, heads);
    answered(b, Word::Done, s, c, 0, 0)
}

// Flush of at most `k`: so many dirty rows, oldest first, are copied to the disk and made clean.
pub fn flush_some(
    b: BoxRecord,
    k: usize,
    disk: &mut [u8],
    flash: &[u8],
    addresses: &mut [u8],
    blocks: &[u8],
    c: Counters,
) -> Outcome<Answered, BoxRecord>
    ensures { told result disk.new flash.now addresses.new blocks.now Option.none
        ≡ called b (lent b disk.old flash.now addresses.old blocks.now (counters_of c)) (Ask.flush k) }
{
    let mut heads = [0u16; index::ENTRIES];
    if let Err(r) = refusals::of_flush(b, disk, flash, addresses, blocks, c, &mut heads) {
        return refused(r, b, c);
    }
    flush_served(b, k, disk, flash, addresses, blocks, c, &heads)
}

// Flush: each dirty row is copied to the disk and made clean.
pub fn flush(
    b: BoxRecord,
    disk: &mut [u8],
    flash: &[u8],
    addresses: &mut [u8],
    blocks: &[u8],
    c: Counters,
) -> Outcome<Answered, BoxRecord>
    ensures { told result disk.new flash.now addresses.new blocks.now Option.none
        ≡ called b (lent b disk.old flash.now addresses.old blocks.now (counters_of c)) (Ask.flush b.rows) }
{
    flush_some(b, b.rows, disk, flash, addresses, blocks, c)
}
