// The moves of Algorithm 3: the oldest address of a list becomes the newest of a later one. Where the list is empty nothing moves.
ghost use Rattle.std.specs.Prelude.{◌≡◌, ℕ, ◌*◌, ◌≤◌, ◌<◌, length};
ghost use Rattle.arc.specs.Arc.{Lists};
ghost use Rattle.arclists.specs.Holding.{total, Holds, Kept, rank, moved};

use crate::{ListName, ListSizes, words};

// "move LRU from" a list "to" a later one.
pub fn move_lru(s: ListSizes, lists: &mut [u8], from: ListName, to: ListName) -> ListSizes
    requires later { rank from < rank to }
    requires lists_len { total s * 4 ≤ length lists.old }
    ensures by_index { (m : ℕ) (l : Lists) → Holds m s lists.old l → Holds m result lists.new (moved from to l) }
    ensures result_value { (total result ≡ total s) × Kept result s }
{
    if s.size(from) == 0 {
        return s;
    }
    let last = s.start(to) + s.size(to) - 1;
    words::rotate_words(lists, s.start(from), last);
    let r = s.with(from, s.size(from) - 1);
    r.with(to, r.size(to) + 1)
}
