// The calls of a D-ARC box that make its step, on lent bytes: each takes any numbers, any slices and any counters.
#![tactic(auto)]

ghost use Rattle.std.specs.Prelude.{◌≡◌, ◌+◌, ◌<◌, ◌^◌, Ok};
ghost use Rattle.std.proofs.Math.Option.{Option};
ghost use Rattle.paper.specs.Lent.{Ask};
ghost use Rattle.counters.specs.Added.{added};
ghost use Rattle.refusals.specs.Given.{counters_of};
ghost use Rattle.policy.specs.Contract.{ask_of};
ghost use Rattle.arcrefusals.specs.Given.{arc_lent};
ghost use Rattle.arccalls.specs.Contract.{arc_told, arc_called};
ghost use Rattle.arcaccess.specs.AccessLaws.{moved};

use arclists::ListSizes;
use arcrefusals::{ArcRecord, base_of};
use arcserve::{reads, writes};
use arcstep::Running;
use checks::index;
use counters::Counters;
use outcome::{Outcome, refused};
use policy::{Answered, Word, calls};
use serve::Write;
use tables::SourceAddress;

// The record with what runs on: the rows held, the lists' sizes and p; C and X stay.
fn moved_on(a: ArcRecord, t: Running) -> ArcRecord
    ensures { result ≡ moved a t.held t.sizes }
{
    let own = a.sizes;
    ArcRecord {
        held: t.held,
        sizes: ListSizes {
            cached: own.cached,
            extra: own.extra,
            ..t.sizes
        },
        ..a
    }
}

// What a served call gives back: its word, what it told, and the counters with its own counts.
fn accessed(
    a: ArcRecord,
    w: Word,
    t: Running,
    c: Counters,
    reads: u64,
    hits: u64,
) -> Outcome<Answered, ArcRecord>
    requires { (c.reads + reads < 2 ^ 64) × (c.hits + hits < 2 ^ 64) × (c.flash + t.flashed < 2 ^ 64) × (c.primary + t.primary < 2 ^ 64) }
    ensures { result ≡ record {
      answer = Ok (record { word = w; flashed = t.flashed; primary = t.primary });
      box_record = moved a t.held t.sizes;
      counters = added c reads hits t.flashed t.primary;
    } }
{
    let k = counters::counted(c, reads, hits, t.flashed as u64, t.primary as u64);
    let answer = Answered {
        word: w,
        flashed: t.flashed,
        primary: t.primary,
    };
    Outcome {
        answer: Ok(answer),
        box_record: moved_on(a, t),
        counters: k,
    }
}

// Read `asked` into the lent block.
pub fn read(
    a: ArcRecord,
    asked: SourceAddress,
    disk: &mut [u8],
    flash: &mut [u8],
    addresses: &mut [u8],
    blocks: &mut [u8],
    lists: &mut [u8],
    c: Counters,
    block: &mut [u8],
) -> Outcome<Answered, ArcRecord>
    ensures { arc_told result disk.new flash.new addresses.new blocks.new lists.new
        (Option.some block.new)
        ≡ arc_called a (arc_lent a disk.old flash.old addresses.old blocks.old lists.old (counters_of c))
        (Ask.read asked.0 block.old) }
{
    let mut heads = [0u16; index::ENTRIES];
    if let Err(r) = arcrefusals::calls::arc_access(
        a, asked, disk, flash, addresses, blocks, lists, c, block, &mut heads,
    ) {
        return refused(r, a, c);
    }
    let b = base_of(a);
    let s = reads::serve_read(
        b, a.sizes, asked, disk, flash, addresses, blocks, lists, block, &heads,
    );
    let t = s.running;
    accessed(a, calls::read_word(s.yes), t, c, 1, calls::one_if(s.yes))
}

// Write of any kind by a seat: through, the lent block goes to the disk and into the cache; back, into the cache, and to the disk later;
// invalidate, to the disk, and its address out of the cache and out of its list.
pub fn write(
    kind: Write,
    a: ArcRecord,
    asked: SourceAddress,
    seat: u16,
    disk: &mut [u8],
    flash: &mut [u8],
    addresses: &mut [u8],
    blocks: &mut [u8],
    lists: &mut [u8],
    c: Counters,
    block: &[u8],
) -> Outcome<Answered, ArcRecord>
    ensures { arc_told result disk.new flash.new addresses.new blocks.new lists.new
        (Option.some block.now)
        ≡ arc_called a (arc_lent a disk.old flash.old addresses.old blocks.old lists.old (counters_of c))
        (ask_of kind asked.0 block.now seat) }
{
    let mut heads = [0u16; index::ENTRIES];
    if let Err(r) = arcrefusals::calls::arc_access(
        a, asked, disk, flash, addresses, blocks, lists, c, block, &mut heads,
    ) {
        return refused(r, a, c);
    }
    let b = base_of(a);
    let s = writes::serve_write(
        kind, b, a.sizes, asked, seat, disk, flash, addresses, blocks, lists, block, &heads,
    );
    let t = s.running;
    accessed(a, calls::write_word(s.yes), t, c, 0, 0)
}
