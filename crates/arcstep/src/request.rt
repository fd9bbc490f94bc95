// The step of one request: Algorithm 2.
ghost use Rattle.std.specs.Prelude.{◌≡◌, Bool, ◌+◌, ◌*◌, ◌≤◌, ◌<◌, length};
ghost use Rattle.tables.specs.Records.{bytes2};
ghost use Rattle.tables.specs.Index.{Indexed};
ghost use Rattle.paper.specs.Cache.{Box};
ghost use Rattle.paper.specs.Engine.{Fixed};
ghost use Rattle.paper.specs.Lent.{bit};
ghost use Rattle.arc.specs.Arc.{Sizes, Lists, was_b2, inserted, checked, arc_step};
ghost use Rattle.arc.specs.ArcStep.{ArcSound};
ghost use Rattle.arclists.specs.Holding.{total, Holds, Kept, Limits, was_of};
ghost use Rattle.parts.specs.Rep.{Sized, Rep, engine};
ghost use Rattle.step.specs.Steps.{asks};
ghost use Rattle.arcstep.specs.Runs.{Within, Runs, Fits, Ends, Stands, sizes_for, needs_check};

use crate::{Running, ends, insert, metadata};
use arclists::{ListName, ListSizes};
use parts::BoxRecord;
use tables::SourceAddress;

// Whether the address was in B2.
pub(crate) fn was_b2(was: Option<ListName>) -> bool
    ensures { result ≡ was_b2 (was_of was) }
{
    matches!(was, Some(ListName::B2))
}

// "Algorithm 2 runs CHECK for an address of B1 or B2 and for a new one".
pub(crate) fn needs_check(was: Option<ListName>) -> bool
    ensures { result ≡ needs_check (was_of was) }
{
    matches!(was, None | Some(ListName::B1 | ListName::B2))
}

// The block of the request gets a block row, and the metadata cache is checked.
pub(crate) fn settle(
    was: Option<ListName>,
    b: BoxRecord,
    t: Running,
    disk: &mut [u8],
    flash: &mut [u8],
    addrs: &mut [u8],
    blocks: &mut [u8],
    lists: &mut [u8],
    g: &[u8],
    block: &[u8],
    heads: &[u16],
) -> Running
    requires fits { Fits b t addrs.old blocks.old lists.old × (length g.now ≡ 32) × (length block.now ≡ b.size) × (t.flashed ≤ 1)
        × (t.primary + t.held + t.held ≤ b.rows + b.rows) }
    requires runs { (R : Within b) × Runs b t disk.old flash.old addrs.old blocks.old lists.old R × Ends b t.sizes.cached (was_b2 (was_of was)) R }
    requires indexed { Indexed b.slots blocks.old heads.now }
    ensures held_le_held { (result.held ≤ t.held) × (result.primary ≤ t.primary + t.held + t.held) × Kept result.sizes t.sizes }
    ensures runs_2 { (Z : Sizes) (R : Within b) (f : Fixed 32) (x : Fixed b.size) → Limits Z t.sizes
        → Runs b t disk.old flash.old addrs.old blocks.old lists.old R
        → Ends b t.sizes.cached (was_b2 (was_of was)) R → f.0 ≡ g.now → x.0 ≡ block.now
        → Runs b result disk.new flash.new addrs.new blocks.new lists.new
        (checked (engine b) Z (was_of was) (inserted (engine b) t.sizes.cached (was_b2 (was_of was)) f x R)) }
{
    let b2 = was_b2(was);
    let r = insert::insert(b2, b, t, disk, flash, addrs, blocks, lists, g, block, heads);
    if !needs_check(was) {
        return r;
    }
    metadata::check(b2, b, r, disk, flash, addrs, blocks, lists)
}

// The step of one request: PROCESSREQUEST. `s` has the lists' sizes before it.
pub fn step(
    b: BoxRecord,
    s: ListSizes,
    a: SourceAddress,
    dirty: u8,
    seat: u16,
    disk: &mut [u8],
    flash: &mut [u8],
    addrs: &mut [u8],
    blocks: &mut [u8],
    lists: &mut [u8],
    g: &[u8],
    block: &[u8],
    heads: &[u16],
) -> Running
    requires slots_nonzero { (0 < b.slots) × (b.rows ≤ 1024) × (length g.now ≡ 32) × (length block.now ≡ b.size) × (a.0 < b.blocks)
        × Sized b addrs.old blocks.old × (b.slots ≡ s.cached) × (b.rows ≡ s.cached + s.cached + s.extra) × (length lists.old ≡ b.rows * 4) }
    requires rep { (l : Lists) × (x : Box (Fixed 32) (Fixed b.size)) × (w : Bool) × Rep b disk.old flash.old addrs.old blocks.old x
        × Holds b.rows s lists.old l × ArcSound (engine b) (sizes_for b s) l x × (dirty ≡ bit w) }
    requires indexed { Indexed b.slots blocks.old heads.now }
    ensures flashed_bound { (result.flashed ≤ 1) × (result.primary ≤ b.rows + b.rows) }
    ensures stands { (l : Lists) (x : Box (Fixed 32) (Fixed b.size)) (f : Fixed 32) (y : Fixed b.size) (w : Bool)
        → Rep b disk.old flash.old addrs.old blocks.old x → Holds b.rows s lists.old l
        → ArcSound (engine b) (sizes_for b s) l x → f.0 ≡ g.now → y.0 ≡ block.now → dirty ≡ bit w
        → Stands b result disk.new flash.new addrs.new blocks.new lists.new
        (arc_step (engine b) (sizes_for b s) l x (asks a.0 f y w (bytes2 seat))) }
{
    let p = ends::part(b, s, a, addrs, lists);
    let was = p.was;
    let t = p.running;
    let r = settle(
        was, b, t, disk, flash, addrs, blocks, lists, g, block, heads,
    );
    ends::join(b, r, was, a, g, dirty, seat, addrs, lists)
}
