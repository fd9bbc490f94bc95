// Flush: the base's on the tables; "All calls exist for it.", and no list changes.
ghost use Rattle.std.specs.Prelude.{◌≡◌, false};
ghost use Rattle.std.proofs.Math.Option.{Option};
ghost use Rattle.tables.specs.Index.{Indexed};
ghost use Rattle.paper.specs.Lent.{Ask, calling};
ghost use Rattle.arc.specs.Arc.{m_of};
ghost use Rattle.arc.specs.ArcLent.{unfit_arc, arc_refusal};
ghost use Rattle.refusals.specs.Given.{counters_of};
ghost use Rattle.arcrefusals.specs.Given.{sizes_of, arc_lent};
ghost use Rattle.arccalls.specs.Contract.{arc_told, arc_called};

use crate::answered;
use arcrefusals::{ArcRecord, base_of, sizes_unfit};
use checks::index;
use counters::Counters;
use outcome::{Outcome, refused};
use policy::Answered;

// "its m is 2 × C + X": the most rows held, of numbers that 11 lets pass.
pub fn rows_of(a: ArcRecord) -> usize
    ensures { unfit_arc (sizes_of a) ≡ false → result ≡ m_of (sizes_of a) }
{
    if sizes_unfit(a) {
        return 0;
    }
    base_of(a).rows
}

// A flush of at most `k` that isn't refused; `heads` is the index of the block rows.
pub fn flush_served(
    a: ArcRecord,
    k: usize,
    disk: &mut [u8],
    flash: &[u8],
    addresses: &mut [u8],
    blocks: &[u8],
    lists: &[u8],
    c: Counters,
    heads: &[u16],
) -> Outcome<Answered, ArcRecord>
    requires k_value { arc_refusal (sizes_of a) (arc_lent a disk.old flash.now addresses.old blocks.now lists.now (counters_of c)) (calling (Ask.flush k))
        ≡ 0 }
    requires indexed { Indexed a.sizes.cached blocks.now heads.now }
    ensures { arc_told result disk.new flash.now addresses.new blocks.now lists.now Option.none
        ≡ arc_called a (arc_lent a disk.old flash.now addresses.old blocks.now lists.now (counters_of c))
        (Ask.flush k) }
{
    let o = policy::calls::flush_served(base_of(a), k, disk, flash, addresses, blocks, c, heads);
    answered(a, o)
}

// Flush of at most `k`: so many dirty rows, oldest first, are copied to the disk and made clean.
pub fn flush_some(
    a: ArcRecord,
    k: usize,
    disk: &mut [u8],
    flash: &[u8],
    addresses: &mut [u8],
    blocks: &[u8],
    lists: &[u8],
    c: Counters,
) -> Outcome<Answered, ArcRecord>
    ensures { arc_told result disk.new flash.now addresses.new blocks.now lists.now Option.none
        ≡ arc_called a (arc_lent a disk.old flash.now addresses.old blocks.now lists.now (counters_of c))
        (Ask.flush k) }
{
    let mut heads = [0u16; index::ENTRIES];
    if let Err(r) = arcrefusals::calls::arc_flush(
        a, disk, flash, addresses, blocks, lists, c, &mut heads,
    ) {
        return refused(r, a, c);
    }
    flush_served(a, k, disk, flash, addresses, blocks, lists, c, &heads)
}

// Flush: each dirty row is copied to the disk and made clean.
pub fn flush(
    a: ArcRecord,
    disk: &mut [u8],
    flash: &[u8],
    addresses: &mut [u8],
    blocks: &[u8],
    lists: &[u8],
    c: Counters,
) -> Outcome<Answered, ArcRecord>
    ensures { arc_told result disk.new flash.now addresses.new blocks.now lists.now Option.none
        ≡ arc_called a (arc_lent a disk.old flash.now addresses.old blocks.now lists.now (counters_of c))
        (Ask.flush (m_of (sizes_of a))) }
{
    flush_some(a, rows_of(a), disk, flash, addresses, blocks, lists, c)
}
