// An address leaves its list, or joins one.
ghost use Rattle.std.specs.Prelude.{◌≡◌, ℕ, ◌+◌, ◌*◌, ◌≤◌, ◌<◌, length};
ghost use Rattle.arc.specs.Arc.{Lists, left, list_of};
ghost use Rattle.arc.specs.Tally.{count};
ghost use Rattle.arc.specs.ArcLent.{end_to_end};
ghost use Rattle.arclists.specs.Holding.{total, Holds, Kept, Low, was_of, with_last};

use crate::{Left, ListName, ListSizes, words};

// "the requested address leaves its list first"; "which list it was is remembered".
pub fn leave(s: ListSizes, lists: &mut [u8], a: u32) -> Left
    requires { total s * 4 ≤ length lists.old }
    ensures by_index { (m : ℕ) (l : Lists) → Holds m s lists.old l → Low l → count a (end_to_end l) ≤ 1
        → Holds m result.sizes lists.new (left a l) }
    ensures by_index_2 { (m : ℕ) (l : Lists) → Holds m s lists.old l → Low l → was_of result.was ≡ list_of a l }
    ensures sizes_bound { (total result.sizes ≤ total s) × Kept result.sizes s }
{
    let n = s.total();
    let i = words::find_word(lists, n, a).unwrap_or(n);
    let was = s.which(i);
    match was {
        Some(list) => {
            words::remove_word(lists, n, i);
            Left {
                sizes: s.with(list, s.size(list) - 1),
                was,
            }
        }
        None => Left { sizes: s, was },
    }
}

// ".. and joins one last": the address becomes the newest of the list.
pub fn join(s: ListSizes, lists: &mut [u8], list: ListName, a: u32) -> ListSizes
    requires { total s * 4 + 4 ≤ length lists.old }
    ensures by_index { (m : ℕ) (l : Lists) → Holds m s lists.old l → total s < m → Holds m result lists.new (with_last list a l) }
    ensures result_value { (total result ≡ total s + 1) × Kept result s }
{
    let i = s.start(list) + s.size(list);
    words::insert_word(lists, s.total(), i, a);
    s.with(list, s.size(list) + 1)
}
