// Which list the replacement takes from, and its move.
ghost use Rattle.std.specs.Prelude.{◌≡◌, cond, ℕ, ◌*◌, ◌≤◌, length};
ghost use Rattle.arc.specs.Arc.{Lists, takes_t1, t1b1, t2b2};
ghost use Rattle.arclists.specs.Holding.{total, Holds, Kept, Sized};

use crate::{ListName, ListSizes, moves};

// "if |T1| > 0 and (|T1| > p or (x in B2 and |T1| = p))"; "Where the replacement would take from an empty T2, it takes from T1". `b2`: x was in B2.
pub fn takes_t1(s: ListSizes, b2: bool) -> bool
    ensures { (l : Lists) → Sized s l → result ≡ takes_t1 b2 l }
{
    if s.t1 == 0 {
        return false;
    }
    if s.t2 == 0 {
        return true;
    }
    if s.p < s.t1 {
        return true;
    }
    b2 & (s.t1 == s.p)
}

// "move LRU from T1 to B1", else "from T2 to B2".
pub fn move_top(s: ListSizes, lists: &mut [u8], top: bool) -> ListSizes
    requires { total s * 4 ≤ length lists.old }
    ensures by_index { (m : ℕ) (l : Lists) → Holds m s lists.old l → Holds m result lists.new (cond top (t1b1 l) (t2b2 l)) }
    ensures result_value { (total result ≡ total s) × Kept result s }
{
    if top {
        moves::move_lru(s, lists, ListName::T1, ListName::B1)
    } else {
        moves::move_lru(s, lists, ListName::T2, ListName::B2)
    }
}
