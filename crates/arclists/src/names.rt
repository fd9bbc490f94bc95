// "lists that don't name each held address once and no other": with a bit for each address that there can be.
ghost use Rattle.std.specs.Prelude.{◌≡◌, true, map, ℕ, ◌+◌, ◌*◌, ◌≤◌, ◌<◌, eqb, length};
ghost use Rattle.tables.specs.Rows.{rows, row_at, table_bytes};
ghost use Rattle.tables.specs.Bits.{bit_at};
ghost use Rattle.tables.specs.Find.{all};
ghost use Rattle.tables.specs.Sound.{distinct, row_address};
ghost use Rattle.tables.specs.SoundLaws.{Marked};
ghost use Rattle.arc.specs.ArcLent.{words, misnamed};
ghost use Rattle.arclists.specs.Names.{fine};

use crate::words;
use tables::{distinct, row};

// Sets the bit of each of the first `n` names. Whether they are below 65,536 and all different.
pub fn names_marked(lists: &[u8], n: usize, seen: &mut [u8]) -> bool
    requires n_in_bounds { (n * 4 ≤ length lists.now) × (length seen.old ≡ 8192) }
    requires by_index { (x : ℕ) → x < 65536 → bit_at seen.old x ≡ 0 }
    ensures value { result ≡ fine (words n lists.now) }
    ensures marked { result ≡ true → Marked (bit_at seen.new) 65536 (words n lists.now) }
    ensures seen_len { length seen.new ≡ 8192 }
{
    for k in (0..n).rev() {
        let x = words::word_at(lists, k);
        if 65536 <= x {
            return false;
        }
        if !distinct::set_bit(seen, x as usize) {
            return false;
        }
    }
    true
}

// Whether the bit of `x` is set.
pub(crate) fn has_bit(seen: &[u8], x: usize) -> bool
    requires { x < length seen.now * 8 }
    ensures { result ≡ eqb (bit_at seen.now x) 1 }
{
    let at = x / 8;
    let i = x % 8;
    let b = seen[at];
    (b >> i) % 2 == 1
}

// Whether the address of row `k` has its bit.
pub fn row_named(addresses: &[u8], k: usize, seen: &[u8]) -> bool
    requires k_in_bounds { (table_bytes (k + 1) ≤ length addresses.now) × (length seen.now ≡ 8192) }
    requires k_bound { row_address (row_at addresses.now k) < 65536 }
    ensures { result ≡ eqb (bit_at seen.now (row_address (row_at addresses.now k))) 1 }
{
    let a = row::address_at(addresses, k);
    has_bit(seen, a.0 as usize)
}

// Whether the address of each of the first `n` rows has its bit.
pub(crate) fn rows_named(addresses: &[u8], n: usize, seen: &[u8]) -> bool
    requires n_in_bounds { (table_bytes n ≤ length addresses.now) × (length seen.now ≡ 8192) }
    requires by_index { (k : ℕ) → k < n → row_address (row_at addresses.now k) < 65536 }
    ensures { result ≡ all (λ r. eqb (bit_at seen.now (row_address r)) 1) (rows n addresses.now) }
{
    (0..n).all(|k| row_named(addresses, k, seen))
}

// Whether the `total` names don't name each of the first `n` rows' addresses once and no other.
pub fn names_wrong(addresses: &[u8], n: usize, lists: &[u8], total: usize) -> bool
    requires n_in_bounds { (table_bytes n ≤ length addresses.now) × (total * 4 ≤ length lists.now) }
    requires by_index { (k : ℕ) → k < n → row_address (row_at addresses.now k) < 65536 }
    requires addresses_value { distinct (map row_address (rows n addresses.now)) ≡ true }
    ensures { result ≡ misnamed (map row_address (rows n addresses.now)) (words total lists.now) }
{
    if total != n {
        return true;
    }
    let mut seen = [0u8; 8192];
    if !names_marked(lists, total, &mut seen) {
        return true;
    }
    !rows_named(addresses, n, &seen)
}
