// Searching a table's rows.
ghost use Rattle.std.specs.Prelude.{◌≡◌};
ghost use Rattle.tables.specs.Rows.{rows, row_at, HasRow, HasRows, IsPrint};
ghost use Rattle.tables.specs.Find.{find_from, has_address, has_fingerprint, caches, same};

use crate::{SourceAddress, row};

// Whether the fingerprints `f` and `g` are the same, by their four words.
pub(crate) fn same_words(f: &[u8], g: &[u8]) -> bool
    requires { IsPrint f.now × IsPrint g.now }
    ensures { result ≡ same f.now g.now }
{
    for k in 0..4 {
        if row::word8(f, k * 8) != row::word8(g, k * 8) {
            return false;
        }
    }
    true
}

// The same, with the first words compared where the call stands: different fingerprints nearly always differ there already.
pub fn same_fingerprint(f: &[u8], g: &[u8]) -> bool
    requires { IsPrint f.now × IsPrint g.now }
    ensures { result ≡ same f.now g.now }
{
    if row::word8(f, 0) != row::word8(g, 0) {
        return false;
    }
    same_words(f, g)
}

// Whether row `k` of an address table has the address `a`.
pub(crate) fn address_is(t: &[u8], k: usize, a: SourceAddress) -> bool
    requires { HasRow t.now k }
    ensures { result ≡ has_address a.0 (row_at t.now k) }
{
    let b = row::address_at(t, k);
    b.0 == a.0
}

// Whether row `k` of an address table has the fingerprint `g`.
pub fn fingerprint_is(t: &[u8], k: usize, g: &[u8]) -> bool
    requires { HasRow t.now k × IsPrint g.now }
    ensures { result ≡ has_fingerprint g.now (row_at t.now k) }
{
    same_fingerprint(row::address_fingerprint(t, k), g)
}

// Whether row `k` of a block table is used and has the fingerprint `g`.
pub fn caches_fingerprint(t: &[u8], k: usize, g: &[u8]) -> bool
    requires { HasRow t.now k × IsPrint g.now }
    ensures { result ≡ caches g.now (row_at t.now k) }
{
    if !row::is_used(t, k) {
        return false;
    }
    same_fingerprint(row::block_fingerprint(t, k), g)
}

// The index of the first of `n` address rows that has the address `a`.
pub fn find_address(t: &[u8], n: usize, a: SourceAddress) -> Option<usize>
    requires { HasRows t.now n }
    ensures { result ≡ find_from (has_address a.0) 0 (rows n t.now) }
{
    // `find` over the range takes 1.16 times as long.
    for k in 0..n {
        if address_is(t, k, a) {
            return Some(k);
        }
    }
    None
}

// The index of the first of `n` address rows that has the fingerprint `g`.
pub fn find_fingerprint(t: &[u8], n: usize, g: &[u8]) -> Option<usize>
    requires { HasRows t.now n × IsPrint g.now }
    ensures { result ≡ find_from (has_fingerprint g.now) 0 (rows n t.now) }
{
    (0..n).find(|k| fingerprint_is(t, *k, g))
}

// The index of the first of `n` block rows that is used and has the fingerprint `g`.
pub fn find_cached(t: &[u8], n: usize, g: &[u8]) -> Option<usize>
    requires { HasRows t.now n × IsPrint g.now }
    ensures { result ≡ find_from (caches g.now) 0 (rows n t.now) }
{
    (0..n).find(|k| caches_fingerprint(t, *k, g))
}
