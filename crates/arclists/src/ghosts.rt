// The oldest address of a list, and its leaving.
ghost use Rattle.std.specs.Prelude.{◌≡◌, ◌∷◌, ℕ, ◌*◌, ◌≤◌, length, drop};
ghost use Rattle.arc.specs.Arc.{Lists};
ghost use Rattle.arclists.specs.Holding.{total, Holds, Kept, Low, names_of, out_of, size_of};

use crate::{ListName, ListSizes, words};

// The oldest address of the list.
pub fn oldest(from: ListName, s: ListSizes, lists: &[u8]) -> u32
    requires { (total s * 4 ≤ length lists.now) × (1 ≤ size_of from s) }
    ensures { (m : ℕ) (l : Lists) → Holds m s lists.now l → Low l → names_of from l ≡ result ∷ drop 1 (names_of from l) }
{
    words::word_at(lists, s.start(from))
}

// Its oldest address leaves.
pub fn out_of(from: ListName, s: ListSizes, lists: &mut [u8]) -> ListSizes
    requires { (total s * 4 ≤ length lists.old) × (1 ≤ size_of from s) }
    ensures by_index { (m : ℕ) (l : Lists) → Holds m s lists.old l → Holds m result lists.new (out_of from l) }
    ensures result_bound { (total result ≤ total s) × Kept result s }
{
    words::remove_word(lists, s.total(), s.start(from));
    s.with(from, s.size(from) - 1)
}
