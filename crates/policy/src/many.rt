// One call for a whole folder: it takes any numbers, any slices and any counters.
ghost use Rattle.std.specs.Prelude.{◌≡◌, ◌+◌, ◌<◌, ◌^◌, Ok};
ghost use Rattle.parts.specs.Rep.{with_held};
ghost use Rattle.counters.specs.Added.{added};
ghost use Rattle.refusals.specs.Given.{lent, counters_of};
ghost use Rattle.policy.specs.Contract.{told_many, called_many};

use crate::Batch;
use counters::Counters;
use outcome::{Outcome, refused};
use parts::BoxRecord;
use refusals::many;
use turns::Sums;

// What `n` served reads give back: their sums, and the counters with their own counts.
fn batched(b: BoxRecord, t: Sums, n: usize, c: Counters) -> Outcome<Batch, BoxRecord>
    requires { (c.reads + n < 2 ^ 64) × (c.hits + t.hits < 2 ^ 64) × (c.flash + t.flashed < 2 ^ 64) × (c.primary + t.primary < 2 ^ 64) }
    ensures { result ≡ record {
      answer = Ok (record { hits = t.hits; flashed = t.flashed; primary = t.primary; fetches = t.fetches });
      box_record = with_held b t.held;
      counters = added c n t.hits t.flashed t.primary;
    } }
{
    let k = counters::counted(
        c,
        n as u64,
        t.hits as u64,
        t.flashed as u64,
        t.primary as u64,
    );
    Outcome {
        answer: Ok(Batch {
            hits: t.hits,
            flashed: t.flashed,
            primary: t.primary,
            fetches: t.fetches,
        }),
        box_record: parts::with_held(b, t.held),
        counters: k,
    }
}

// Reads the block at each address asked for into the buffer, in their order.
pub fn read_many(
    b: BoxRecord,
    asked: &[u32],
    disk: &mut [u8],
    flash: &mut [u8],
    addresses: &mut [u8],
    blocks: &mut [u8],
    c: Counters,
    buffer: &mut [u8],
) -> Outcome<Batch, BoxRecord>
    ensures { told_many result disk.new flash.new addresses.new blocks.new buffer.new
        ≡ called_many b (lent b disk.old flash.old addresses.old blocks.old (counters_of c))
        asked.now buffer.old }
{
    if let Err(r) = many::of_many(b, asked, disk, flash, addresses, blocks, c, buffer) {
        return refused(r, b, c);
    }
    let t = turns::serve_many(b, asked, disk, flash, addresses, blocks, buffer);
    batched(b, t, asked.len(), c)
}
