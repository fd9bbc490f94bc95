// p's two changes: what a hit in B1 or B2 makes of the number p.
ghost use Rattle.std.specs.Prelude.{◌≡◌, ◌+◌, ◌/◌};
ghost use Rattle.arc.specs.Arc.{Lists, larger, smaller, new_p};
ghost use Rattle.arclists.specs.Holding.{Sized, was_of};

use crate::{ListName, ListSizes};

// "the larger of 1 and the quotient .., rounded down"
pub(crate) fn change(over: usize, under: usize) -> usize
    ensures { result ≡ larger 1 (over / under) }
{
    over.checked_div(under).unwrap_or(0).max(1)
}

// ".. raises p by .., to at most C"
fn raised(p: usize, by: usize, top: usize) -> usize
    ensures { result ≡ smaller top (p + by) }
{
    p.saturating_add(by).min(top)
}

// "A hit in B1 raises p by the larger of 1 and the quotient of B2's size by B1's, rounded down, to at most C. A hit in B2 lowers p by the larger of 1
// and the opposite quotient, to at least 0." `s` has the sizes before the address leaves its list, which was `was`.
#[tactic(auto, unfolding(arc::specs::Arc::new_p))]
pub fn new_p(s: ListSizes, was: Option<ListName>) -> usize
    ensures { (l : Lists) → Sized s l → result ≡ new_p s.cached (was_of was) l }
{
    match was {
        Some(ListName::B1) => raised(s.p, change(s.b2, s.b1), s.cached),
        Some(ListName::B2) => s.p.saturating_sub(change(s.b1, s.b2)),
        Some(ListName::T1 | ListName::T2 | ListName::B3) | None => s.p,
    }
}
