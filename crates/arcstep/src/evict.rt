// An address leaves the box: "Dirty blocks and evicted dirty addresses reach disk first, as in the base."
ghost use Rattle.std.specs.Prelude.{◌≡◌, ◌+◌, ◌≤◌, ◌<◌, eqb};
ghost use Rattle.paper.specs.KeyedLaws.{Distinct};
ghost use Rattle.paper.specs.Cache.{Stepped, row_of};
ghost use Rattle.paper.specs.Engine.{Fixed};
ghost use Rattle.arc.specs.Arc.{row_out};
ghost use Rattle.parts.specs.Rep.{Sized, Rep, LentBox, engine};
ghost use Rattle.arcstep.specs.Runs.{RowGone, Within, Runs, SomeRuns, Fits, Less, evicted_from};

use crate::Running;
use arclists::{ListName, ghosts};
use parts::{BoxRecord, copy, rows};
use tables::{SourceAddress, shift};

// What is left when a row is taken out: how many rows are held, and the blocks copied to the disk.
#[derive(Clone, Copy)]
pub struct Gone {
    pub held: usize,
    pub primary: usize,
}

// Takes the row of `x` out, if there is one, after its block is copied to its disk address if it is dirty.
pub(crate) fn evict_row(
    b: BoxRecord,
    x: u32,
    disk: &mut [u8],
    flash: &[u8],
    addrs: &mut [u8],
    blocks: &[u8],
) -> Gone
    requires slots_nonzero { (0 < b.slots) × Sized b addrs.old blocks.now }
    requires lent_box { LentBox b disk.old flash.now addrs.old blocks.now }
    ensures held_bound { result.primary + result.held ≤ b.held }
    ensures row_gone { (t : Stepped (Fixed 32) (Fixed b.size))
        → Rep b disk.old flash.now addrs.old blocks.now t.box → Distinct eqb (λ y. y.address) t.box.rows
        → RowGone b result disk.new flash.now addrs.new blocks.now t
        (row_out (engine b) x (row_of x t.box.rows) t) }
{
    let i = rows::row_of(addrs, b.held, SourceAddress(x));
    if b.held <= i {
        return Gone {
            held: b.held,
            primary: 0,
        };
    }
    let primary = copy::copy_one(b, i, disk, flash, addrs, blocks);
    shift::remove_row(addrs, b.held, i);
    Gone {
        held: b.held - 1,
        primary,
    }
}

// The oldest address of the list leaves the box, if there is one: its row, and its name.
pub(crate) fn evict(
    from: ListName,
    b: BoxRecord,
    t: Running,
    disk: &mut [u8],
    flash: &[u8],
    addrs: &mut [u8],
    blocks: &[u8],
    lists: &mut [u8],
) -> Running
    requires fits { Fits b t addrs.old blocks.now lists.old }
    requires some_runs { SomeRuns b t disk.old flash.now addrs.old blocks.now lists.old }
    ensures less { Less result t }
    ensures runs { (R : Within b) → Runs b t disk.old flash.now addrs.old blocks.now lists.old R
        → Runs b result disk.new flash.now addrs.new blocks.now lists.new (evicted_from b from R) }
{
    if t.sizes.size(from) == 0 {
        return t;
    }
    let x = ghosts::oldest(from, t.sizes, lists);
    let c = parts::with_held(b, t.held);
    let g = evict_row(c, x, disk, flash, addrs, blocks);
    let s = ghosts::out_of(from, t.sizes, lists);
    Running {
        held: g.held,
        sizes: s,
        primary: t.primary + g.primary,
        ..t
    }
}
