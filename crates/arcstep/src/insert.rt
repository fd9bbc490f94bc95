// INSERTINDATACACHE: the block of the request gets a block row.
ghost use Rattle.std.specs.Prelude.{◌≡◌, false, List, ℕ, ◌+◌, ◌≤◌, length};
ghost use Rattle.tables.specs.Index.{Indexed};
ghost use Rattle.paper.specs.Cache.{cached};
ghost use Rattle.paper.specs.Engine.{Fixed};
ghost use Rattle.arc.specs.Arc.{replace, cleared!, stored_in, inserted};
ghost use Rattle.arclists.specs.Holding.{total, Kept};
ghost use Rattle.parts.specs.Rep.{Sized, with_held, engine};
ghost use Rattle.arcstep.specs.Runs.{Within, Runs, SomeRuns, Fits, Less, Clears, Taken, Ends};

use crate::{Cleared, Running, metadata, victim};
use parts::{BoxRecord, rows};
use step::steps;
use tables::shift;

// One run of the replacement, and what can be taken then.
pub(crate) fn again(
    b2: bool,
    b: BoxRecord,
    t: Running,
    disk: &mut [u8],
    flash: &[u8],
    addrs: &mut [u8],
    blocks: &[u8],
    lists: &mut [u8],
    heads: &[u16],
) -> Cleared
    requires fits { Fits b t addrs.old blocks.now lists.old }
    requires some_runs { SomeRuns b t disk.old flash.now addrs.old blocks.now lists.old }
    requires indexed { Indexed b.slots blocks.now heads.now }
    ensures less { Less result.running t }
    ensures clears { (R : Within b) → Runs b t disk.old flash.now addrs.old blocks.now lists.old R
        → Clears b result disk.new flash.now addrs.new blocks.now lists.new
        (replace (engine b) t.sizes.cached b2 R) }
{
    let r = metadata::replace(b2, b, t, disk, flash, addrs, blocks, lists);
    Cleared {
        running: r,
        place: victim::victim(b, r, addrs, blocks, lists, heads),
    }
}

// "where a row is needed and there is neither that nor a free one, the replacement runs again until there is": as often as T1 and T2 have addresses, at most.
pub(crate) fn clear(
    b2: bool,
    b: BoxRecord,
    t: Running,
    disk: &mut [u8],
    flash: &[u8],
    addrs: &mut [u8],
    blocks: &[u8],
    lists: &mut [u8],
    heads: &[u16],
) -> Cleared
    requires fits { Fits b t addrs.old blocks.now lists.old }
    requires some_runs { SomeRuns b t disk.old flash.now addrs.old blocks.now lists.old }
    requires indexed { Indexed b.slots blocks.now heads.now }
    ensures less { Less result.running t }
    ensures clears { (R : Within b) → Runs b t disk.old flash.now addrs.old blocks.now lists.old R
        → Clears b result disk.new flash.now addrs.new blocks.now lists.new
        (cleared! (engine b) t.sizes.cached b2 R) }
{
    let mut c = Cleared {
        running: t,
        place: victim::victim(b, t, addrs, blocks, lists, heads),
    };
    for _i in 0..t.sizes.t1 + t.sizes.t2 {
        if c.place < b.slots {
            return c;
        }
        c = again(b2, b, c.running, disk, flash, addrs, blocks, lists, heads);
    }
    c
}

// "Dirty blocks .. reach disk first, as in the base": step 4's storing of `block` with the fingerprint `g`, which isn't cached, in the block row at `j`.
pub(crate) fn store(
    b: BoxRecord,
    t: Running,
    j: usize,
    disk: &mut [u8],
    flash: &mut [u8],
    addrs: &mut [u8],
    blocks: &mut [u8],
    g: &[u8],
    block: &[u8],
) -> Running
    requires g_len { (length g.now ≡ 32) × (length block.now ≡ b.size) × (t.primary + t.held ≤ b.rows + b.rows) × (b.rows ≤ 1024)
        × Sized (with_held b t.held) addrs.old blocks.old }
    requires by_index { (lists : List ℕ) × (R : Within b) × Runs b t disk.old flash.old addrs.old blocks.old lists R × Taken b j R }
    ensures held_value { (result.held ≡ t.held) × (result.primary ≤ t.primary + t.held) × (result.flashed ≤ 1) × (result.sizes ≡ t.sizes) }
    ensures by_index_2 { (lists : List ℕ) (R : Within b) (f : Fixed 32) (x : Fixed b.size)
        → Runs b t disk.old flash.old addrs.old blocks.old lists R → Taken b j R
        → cached (engine b) f R.stepped.box.used ≡ false → f.0 ≡ g.now → x.0 ≡ block.now
        → Runs b result disk.new flash.new addrs.new blocks.new lists (stored_in (engine b) f x R) }
{
    let c = parts::with_held(b, t.held);
    let count = steps::store_at(c, j, disk, flash, addrs, blocks, g, block);
    Running {
        flashed: 1,
        primary: t.primary + count,
        ..t
    }
}

// INSERTINDATACACHE. "A changed content is inserted whichever list held the address"
pub(crate) fn insert(
    b2: bool,
    b: BoxRecord,
    t: Running,
    disk: &mut [u8],
    flash: &mut [u8],
    addrs: &mut [u8],
    blocks: &mut [u8],
    lists: &mut [u8],
    g: &[u8],
    block: &[u8],
    heads: &[u16],
) -> Running
    requires fits { Fits b t addrs.old blocks.old lists.old × (length g.now ≡ 32) × (length block.now ≡ b.size) × (t.flashed ≤ 1) }
    requires runs { (R : Within b) × Runs b t disk.old flash.old addrs.old blocks.old lists.old R × Ends b t.sizes.cached b2 R }
    requires indexed { Indexed b.slots blocks.old heads.now }
    ensures held_le_held { (result.held ≤ t.held) × (result.primary ≤ t.primary + t.held) × (result.flashed ≤ 1) × (total result.sizes ≤ total t.sizes)
        × Kept result.sizes t.sizes }
    ensures runs_2 { (R : Within b) (f : Fixed 32) (x : Fixed b.size)
        → Runs b t disk.old flash.old addrs.old blocks.old lists.old R
        → Ends b t.sizes.cached b2 R → f.0 ≡ g.now → x.0 ≡ block.now
        → Runs b result disk.new flash.new addrs.new blocks.new lists.new
        (inserted (engine b) t.sizes.cached b2 f x R) }
{
    let j = rows::place_of(blocks, b.slots, g);
    if j < b.slots {
        shift::to_newest(blocks, b.slots, j);
        return t;
    }
    let c = clear(b2, b, t, disk, flash, addrs, blocks, lists, heads);
    store(b, c.running, c.place, disk, flash, addrs, blocks, g, block)
}
