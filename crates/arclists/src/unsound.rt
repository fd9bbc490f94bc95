// Refusal 6, as far as it is about the lists.
ghost use Rattle.std.specs.Prelude.{◌≡◌, true, List, map, ℕ, ◌+◌, ◌*◌, ◌≤◌, ◌<◌, length};
ghost use Rattle.tables.specs.Rows.{rows, row_at, table_bytes};
ghost use Rattle.tables.specs.Find.{any};
ghost use Rattle.tables.specs.Unsound.{nonzero};
ghost use Rattle.tables.specs.Sound.{distinct, row_address};
ghost use Rattle.paper.specs.Cache.{AddressRow};
ghost use Rattle.paper.specs.Engine.{Fixed};
ghost use Rattle.arc.specs.Arc.{Sizes};
ghost use Rattle.arc.specs.ArcLent.{oversized, lists_unsound};
ghost use Rattle.arclists.specs.Holding.{rec_of, limits_of, Limits};

use crate::{ListSizes, names};

// "or pass these sizes": "T1, T2 and B3 hold at most C + X together, B1 and B2 together at most C"; for any numbers in `s`.
pub(crate) fn too_large(s: ListSizes) -> bool
    requires { s.cached + s.extra ≤ 1024 }
    ensures { result ≡ oversized (limits_of s) (rec_of s) }
{
    let most = s.cached + s.extra;
    most < s.t1.saturating_add(s.t2).saturating_add(s.b3) || s.cached < s.b1.saturating_add(s.b2)
}

// Whether a byte isn't zero.
pub(crate) fn has_nonzero(bytes: &[u8]) -> bool
    ensures { result ≡ any nonzero bytes.now }
{
    bytes.iter().any(|b| *b != 0)
}

// "Refusal 6 also covers lists that don't name each held address once and no other, or pass these sizes, a nonzero byte after them, and p above C":
// the held addresses are those of the first `n` rows.
pub fn lists_unsound(s: ListSizes, addresses: &[u8], n: usize, lists: &[u8]) -> bool
    requires extra_bound { s.cached + s.cached + s.extra ≤ 1024 }
    requires lists_len { (length lists.now ≡ (s.cached + s.cached + s.extra) * 4) × (table_bytes n ≤ length addresses.now) }
    requires by_index { (k : ℕ) → k < n → row_address (row_at addresses.now k) < 65536 }
    requires addresses_value { distinct (map row_address (rows n addresses.now)) ≡ true }
    ensures { (Z : Sizes) (rs : List (AddressRow (Fixed 32))) → Limits Z s
        → map (λ a. a.address) rs ≡ map row_address (rows n addresses.now) → result ≡ lists_unsound Z rs (rec_of s) lists.now }
{
    if too_large(s) {
        return true;
    }
    if s.cached < s.p {
        return true;
    }
    let total = s.total();
    if has_nonzero(&lists[total * 4..]) {
        return true;
    }
    names::names_wrong(addresses, n, lists, total)
}
