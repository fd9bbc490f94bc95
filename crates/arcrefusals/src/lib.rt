// The refusals of a D-ARC box, in the documents' order: 11, 12, 2, 3, 6, 7, 8, 13, 9.
#![tactic(auto)]

pub mod calls;
pub mod many;
pub mod report;
pub mod state;
pub mod tops;

ghost use Rattle.std.specs.Prelude.{◌≡◌, ◌≤◌};
ghost use Rattle.refusal.specs.Numbers.{number_of};
ghost use Rattle.paper.specs.Cache.{Counters};
ghost use Rattle.paper.specs.Lent.{opening};
ghost use Rattle.arc.specs.ArcLent.{unfit_arc, arc_refusal};
ghost use Rattle.arcrefusals.specs.Given.{sizes_of, base_of, arc_lent};

use arclists::ListSizes;
use parts::BoxRecord;
use refusal::Refusal;

// The record of a D-ARC box: the block size B, the disk's blocks P, the addresses held n, the office label, the most dirty rows t, and the lists' sizes with
// p, C and X.
#[derive(Clone, Copy)]
pub struct ArcRecord {
    pub size: usize,
    pub blocks: usize,
    pub held: usize,
    pub label: [u8; 64],
    pub limit: usize,
    pub sizes: ListSizes,
}

// "C (cached blocks, its d) and X (extra addresses); its m is 2 × C + X": the base's record of the box.
pub fn base_of(a: ArcRecord) -> BoxRecord
    requires { (a.sizes.cached ≤ 256) × (a.sizes.extra ≤ 1024) }
    ensures { result ≡ base_of a }
{
    let label = a.label;
    BoxRecord {
        size: a.size,
        blocks: a.blocks,
        rows: a.sizes.cached + a.sizes.cached + a.sizes.extra,
        slots: a.sizes.cached,
        held: a.held,
        label: label,
        limit: a.limit,
    }
}

// "It refuses with 11, in place of 1, if B or P is outside its set, C isn't 1 to 256, or 2 × C + X exceeds 1,024.": the two numbers by themselves, so that the
// sum isn't too large, and then 1 of the base's record.
pub fn sizes_unfit(a: ArcRecord) -> bool
    ensures { result ≡ unfit_arc (sizes_of a) }
{
    if 256 < a.sizes.cached {
        return true;
    }
    if 1024 < a.sizes.extra {
        return true;
    }
    refusals::numbers_unfit(base_of(a))
}

// Refusals 11, 12 and 2: what an opening is refused with. "2: a lent length isn't the one above", the lists' "m × 4 bytes" too.
pub fn arc_opening(
    a: ArcRecord,
    disk: &[u8],
    flash: &[u8],
    addresses: &[u8],
    blocks: &[u8],
    lists: &[u8],
) -> Result<(), Refusal>
    ensures { (k : Counters) → number_of result ≡ arc_refusal (sizes_of a) (arc_lent a disk.now flash.now addresses.now
        blocks.now lists.now k) opening }
{
    if sizes_unfit(a) {
        return Err(Refusal::ArcOutside);
    }
    let b = base_of(a);
    refusals::of_opening(b, disk, flash, addresses, blocks)?;
    if lists.len() != b.rows * 4 {
        return Err(Refusal::WrongLength);
    }
    Ok(())
}
