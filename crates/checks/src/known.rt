// The block row of each address row, and what the policy asks of them.
ghost use Rattle.std.specs.Prelude.{◌≡◌, true, ◌&&◌, List, map, ℕ, ◌+◌, ◌<◌, ◌≤◌, eqb, length, get_or};
ghost use Rattle.tables.specs.Rows.{HasRow, HasRows, rows, row_at};
ghost use Rattle.tables.specs.Find.{all, every, find_from, is_used};
ghost use Rattle.tables.specs.Unsound.{elem};
ghost use Rattle.tables.specs.Sound.{mark};
ghost use Rattle.table_laws.specs.Knowns.{Tells};
ghost use Rattle.tables.specs.Index.{BlockTable, Indexed, unique, place_in, cached_in, dirty_ok, unknown_in};

use crate::index;
use tables::row;

// The index of the block row of held row `k` of `a`, or 256.
pub fn place_of(a: &[u8], k: usize, t: &[u8], d: usize, heads: &[u16]) -> usize
    requires has_row { HasRow a.now k × BlockTable d t.now }
    requires indexed { Indexed d t.now heads.now }
    ensures { result ≡ place_in (rows d t.now) (row_at a.now k) }
{
    index::find(t, d, heads, row::address_fingerprint(a, k)).unwrap_or(256)
}

// Whether the fingerprint of held row `k` of `a` is cached.
pub(crate) fn cached(a: &[u8], k: usize, t: &[u8], d: usize, heads: &[u16]) -> bool
    requires has_row { HasRow a.now k × BlockTable d t.now }
    requires indexed { Indexed d t.now heads.now }
    ensures { result ≡ cached_in (rows d t.now) (row_at a.now k) }
{
    index::find(t, d, heads, row::address_fingerprint(a, k)).is_some()
}

// Whether row `k` of `a` is clean, or has a cached fingerprint.
pub(crate) fn dirty_ok(a: &[u8], k: usize, t: &[u8], d: usize, heads: &[u16]) -> bool
    requires has_row { HasRow a.now k × BlockTable d t.now }
    requires indexed { Indexed d t.now heads.now }
    ensures { result ≡ dirty_ok (rows d t.now) (row_at a.now k) }
{
    !row::is_dirty(a, k) || cached(a, k, t, d, heads)
}

// Whether every dirty row of the first `n` has a cached fingerprint: the clean ones are not searched for.
pub fn dirty_cached(a: &[u8], n: usize, t: &[u8], d: usize, heads: &[u16]) -> bool
    requires has_rows { HasRows a.now n × BlockTable d t.now }
    requires indexed { Indexed d t.now heads.now }
    ensures { result ≡ all (dirty_ok (rows d t.now)) (rows n a.now) }
{
    (0..n).all(|k| dirty_ok(a, k, t, d, heads))
}

// Whether every row of the first `n` has a cached fingerprint.
pub fn all_cached(a: &[u8], n: usize, t: &[u8], d: usize, heads: &[u16]) -> bool
    requires has_rows { HasRows a.now n × BlockTable d t.now }
    requires indexed { Indexed d t.now heads.now }
    ensures { result ≡ all (cached_in (rows d t.now)) (rows n a.now) }
{
    (0..n).all(|k| cached(a, k, t, d, heads))
}

// Sets the byte of `known`, 0 everywhere at first, at the place of the block row of each of the first `n` rows.
pub(crate) fn mark_known(a: &[u8], n: usize, t: &[u8], d: usize, heads: &[u16], known: &mut [u8])
    requires has_rows { HasRows a.now n × BlockTable d t.now × (length known.old ≡ 257) }
    requires indexed { Indexed d t.now heads.now }
    requires by_index { (x : ℕ) → x < length known.old → get_or known.old x 0 ≡ 0 }
    ensures known_len { length known.new ≡ 257 }
    ensures by_index_2 { (x : ℕ) → x < length known.new
        → get_or known.new x 0 ≡ mark (elem x (map (place_in (rows d t.now)) (rows n a.now))) }
{
    for k in (0..n).rev() {
        let x = place_of(a, k, t, d, heads);
        known[x] = 1;
    }
}

// Whether row `k` is used and its byte `b` is 0.
pub(crate) fn unmarked(t: &[u8], k: usize, b: u8) -> bool
    requires { HasRow t.now k }
    ensures { result ≡ is_used (row_at t.now k) && eqb b 0 }
{
    row::is_used(t, k) && b == 0
}

// The index of the first used row of `d` whose byte of `known` is 0: where the bytes tell it, that whose fingerprint none of some address rows has.
pub fn first_unknown(t: &[u8], d: usize, known: &[u8]) -> Option<usize>
    requires { HasRows t.now d × (d ≤ length known.now) }
    ensures { (hs : List (List ℕ)) → Tells d t.now known.now hs → result ≡ find_from (unknown_in hs) 0 (rows d t.now) }
{
    (0..d).find(|k| unmarked(t, *k, known[*k]))
}

// The index of the oldest used row of `d` whose fingerprint no address row of the first `n` has.
pub fn oldest_unknown(a: &[u8], n: usize, t: &[u8], d: usize, heads: &[u16]) -> Option<usize>
    requires has_rows { HasRows a.now n × BlockTable d t.now }
    requires t_value { every unique (rows d t.now) ≡ true }
    requires indexed { Indexed d t.now heads.now }
    ensures { result ≡ find_from (unknown_in (rows n a.now)) 0 (rows d t.now) }
{
    let mut known = [0u8; 257];
    mark_known(a, n, t, d, heads, &mut known);
    first_unknown(t, d, &known)
}
