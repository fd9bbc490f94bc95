// The metadata cache: the subroutines of Algorithm 3 on the lists, with the rows of the addresses that leave. `b2`: the requested address was in B2.
ghost use Rattle.std.specs.Prelude.{◌≡◌, ◌+◌, ◌≤◌};
ghost use Rattle.arc.specs.Arc.{Sizes, room_in_b, replace, manage, check};
ghost use Rattle.arclists.specs.Holding.{Limits};
ghost use Rattle.parts.specs.Rep.{engine};
ghost use Rattle.arcstep.specs.Runs.{Within, Runs, SomeRuns, Fits, Less, with_sizes};

use crate::{Running, evict};
use arclists::{ListName, ListSizes, moves, replace as lists_replace};
use parts::BoxRecord;

// The same with other sizes of the lists.
pub(crate) fn with_sizes(r: Running, s: ListSizes) -> Running
    ensures { result ≡ with_sizes r s }
{
    Running { sizes: s, ..r }
}

// "Where B1 and B2 would pass C, B1's oldest, or B2's if B1 is empty, is evicted first."
pub(crate) fn room(
    b: BoxRecord,
    t: Running,
    disk: &mut [u8],
    flash: &[u8],
    addrs: &mut [u8],
    blocks: &[u8],
    lists: &mut [u8],
) -> Running
    requires fits { Fits b t addrs.old blocks.now lists.old }
    requires some_runs { SomeRuns b t disk.old flash.now addrs.old blocks.now lists.old }
    ensures less { Less result t }
    ensures runs { (R : Within b) → Runs b t disk.old flash.now addrs.old blocks.now lists.old R
        → Runs b result disk.new flash.now addrs.new blocks.now lists.new
        (room_in_b (engine b) t.sizes.cached R) }
{
    if t.sizes.b1 + t.sizes.b2 < t.sizes.cached {
        return t;
    }
    if t.sizes.b1 == 0 {
        return evict::evict(ListName::B2, b, t, disk, flash, addrs, blocks, lists);
    }
    evict::evict(ListName::B1, b, t, disk, flash, addrs, blocks, lists)
}

// REPLACEINMETADATACACHE: "move LRU from T1 to B1", else "from T2 to B2"; "where both are empty it does nothing".
pub(crate) fn replace(
    b2: bool,
    b: BoxRecord,
    t: Running,
    disk: &mut [u8],
    flash: &[u8],
    addrs: &mut [u8],
    blocks: &[u8],
    lists: &mut [u8],
) -> Running
    requires fits { Fits b t addrs.old blocks.now lists.old }
    requires some_runs { SomeRuns b t disk.old flash.now addrs.old blocks.now lists.old }
    ensures less { Less result t }
    ensures runs { (R : Within b) → Runs b t disk.old flash.now addrs.old blocks.now lists.old R
        → Runs b result disk.new flash.now addrs.new blocks.now lists.new
        (replace (engine b) t.sizes.cached b2 R) }
{
    if t.sizes.t1 + t.sizes.t2 == 0 {
        return t;
    }
    let top = lists_replace::takes_t1(t.sizes, b2);
    let r = room(b, t, disk, flash, addrs, blocks, lists);
    let s = lists_replace::move_top(r.sizes, lists, top);
    with_sizes(r, s)
}

// MANAGEMETADATACACHE, where T1 and B1 have C or more together.
pub(crate) fn manage_full(
    b2: bool,
    b: BoxRecord,
    t: Running,
    disk: &mut [u8],
    flash: &[u8],
    addrs: &mut [u8],
    blocks: &[u8],
    lists: &mut [u8],
) -> Running
    requires fits { Fits b t addrs.old blocks.now lists.old × (t.sizes.cached ≤ t.sizes.t1 + t.sizes.b1) }
    requires some_runs { SomeRuns b t disk.old flash.now addrs.old blocks.now lists.old }
    ensures less { Less result t }
    ensures runs { (R : Within b) → Runs b t disk.old flash.now addrs.old blocks.now lists.old R
        → Runs b result disk.new flash.now addrs.new blocks.now lists.new
        (manage (engine b) t.sizes.cached b2 R) }
{
    if t.sizes.t1 < t.sizes.cached {
        let s = moves::move_lru(t.sizes, lists, ListName::B1, ListName::B3);
        let r = with_sizes(t, s);
        return replace(b2, b, r, disk, flash, addrs, blocks, lists);
    }
    if t.sizes.b1 == 0 {
        let s = moves::move_lru(t.sizes, lists, ListName::T1, ListName::B3);
        return with_sizes(t, s);
    }
    let s = moves::move_lru(t.sizes, lists, ListName::B1, ListName::B3);
    let u = moves::move_lru(s, lists, ListName::T1, ListName::B1);
    with_sizes(t, u)
}

// MANAGEMETADATACACHE. "Of the metadata subroutine's four ways, the two that name the replacement always run it."
pub(crate) fn manage(
    b2: bool,
    b: BoxRecord,
    t: Running,
    disk: &mut [u8],
    flash: &[u8],
    addrs: &mut [u8],
    blocks: &[u8],
    lists: &mut [u8],
) -> Running
    requires fits { Fits b t addrs.old blocks.now lists.old }
    requires some_runs { SomeRuns b t disk.old flash.now addrs.old blocks.now lists.old }
    ensures less { Less result t }
    ensures runs { (R : Within b) → Runs b t disk.old flash.now addrs.old blocks.now lists.old R
        → Runs b result disk.new flash.now addrs.new blocks.now lists.new
        (manage (engine b) t.sizes.cached b2 R) }
{
    if t.sizes.cached <= t.sizes.t1 + t.sizes.b1 {
        return manage_full(b2, b, t, disk, flash, addrs, blocks, lists);
    }
    if t.sizes.cached <= t.sizes.b1 + t.sizes.b2 {
        let s = moves::move_lru(t.sizes, lists, ListName::B2, ListName::B3);
        let r = with_sizes(t, s);
        return replace(b2, b, r, disk, flash, addrs, blocks, lists);
    }
    replace(b2, b, t, disk, flash, addrs, blocks, lists)
}

// CHECKMETADATACACHE. "B3's oldest is evicted only if there is one."
pub(crate) fn check(
    b2: bool,
    b: BoxRecord,
    t: Running,
    disk: &mut [u8],
    flash: &[u8],
    addrs: &mut [u8],
    blocks: &[u8],
    lists: &mut [u8],
) -> Running
    requires fits { Fits b t addrs.old blocks.now lists.old }
    requires some_runs { SomeRuns b t disk.old flash.now addrs.old blocks.now lists.old }
    ensures less { Less result t }
    ensures runs { (Z : Sizes) (R : Within b) → Limits Z t.sizes
        → Runs b t disk.old flash.now addrs.old blocks.now lists.old R
        → Runs b result disk.new flash.now addrs.new blocks.now lists.new
        (check (engine b) Z b2 R) }
{
    if t.sizes.t1 + t.sizes.t2 + t.sizes.b3 != t.sizes.cached + t.sizes.extra {
        return t;
    }
    if t.sizes.b3 == 0 {
        let r = manage(b2, b, t, disk, flash, addrs, blocks, lists);
        return evict::evict(ListName::B3, b, r, disk, flash, addrs, blocks, lists);
    }
    evict::evict(ListName::B3, b, t, disk, flash, addrs, blocks, lists)
}
