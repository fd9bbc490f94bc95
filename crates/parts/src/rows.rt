// What the steps ask of the two tables, in the paper's words: an index is that of the first row that passes, or the count of rows.
ghost use Rattle.std.specs.Prelude.{◌≡◌, true, not, cond, List, [], ℕ, ◌+◌, ◌<◌, ◌≤◌, length, take, get_or, eqb, ltb, unwrap_or, is_some};
ghost use Rattle.tables.specs.Rows.{row_at, rows, table_bytes};
ghost use Rattle.tables.specs.Find.{find_from, every, all, has_address, has_fingerprint, caches, is_dirty, is_used};
ghost use Rattle.tables.specs.Index.{Indexed, unique, cached_in, unknown_in};
ghost use Rattle.paper.specs.Cache.{Numbers, AddressRow, BlockRow, known, some_uncached};
ghost use Rattle.paper.specs.Engine.{Fixed, labelled, comparing};
ghost use Rattle.paper.specs.Lent.{bit};
ghost use Rattle.parts.specs.Rep.{Sized, no_row};
ghost use Rattle.paper.specs.Index.{index_where};
ghost use Rattle.paper.specs.Layout.{Addrs, Blocks};
ghost use Rattle.parts.specs.Asked.{or_first, victim_place, full};
ghost use Rattle.tables.specs.Records.{read_address};

use crate::BoxRecord;
use tables::{SourceAddress, find, row};

// The index of the row of `a` among `n` held rows.
// Where there is none, it is `n` and no `None`: `index_where`, of the paper's specs, is then the count of rows.
pub fn row_of(t: &[u8], n: usize, a: SourceAddress) -> usize
    requires { table_bytes n ≤ length t.now }
    ensures value { result ≡ unwrap_or (find_from (has_address a.0) 0 (rows n t.now)) n }
    ensures by_index { (P m : ℕ) (rows : List (AddressRow (Fixed 32))) → Addrs P m n t.now rows → result
        ≡ index_where (λ x. eqb a.0 x.address) rows }
{
    find::find_address(t, n, a).unwrap_or(n)
}

// Whether one of `n` held rows has the fingerprint `g`.
pub fn knows(t: &[u8], n: usize, g: &[u8]) -> bool
    requires { (table_bytes n ≤ length t.now) × (length g.now ≡ 32) }
    ensures value { result ≡ is_some (find_from (has_fingerprint g.now) 0 (rows n t.now)) }
    ensures by_index { (P m : ℕ) (rows : List (AddressRow (Fixed 32))) (f : Fixed 32) → Addrs P m n t.now rows → f.0 ≡ g.now → result
        ≡ known (comparing) f rows }
{
    find::find_fingerprint(t, n, g).is_some()
}

// The place of the used row of `g` among `d` block rows.
// Where there is none, it is `d` and no `None`: `index_where`, of the paper's specs, is then the count of used rows, behind the free ones.
pub fn place_of(t: &[u8], d: usize, g: &[u8]) -> usize
    requires { (table_bytes d ≤ length t.now) × (length g.now ≡ 32) }
    ensures value { result ≡ unwrap_or (find_from (caches g.now) 0 (rows d t.now)) d }
    ensures by_index { (free : List ℕ) (used : List (BlockRow (Fixed 32))) (f : Fixed 32) → Blocks d t.now free used → f.0 ≡ g.now → result
        ≡ length free + index_where (λ u. comparing.same f u.fingerprint) used }
{
    find::find_cached(t, d, g).unwrap_or(d)
}

// Whether one of the first `k` held rows has a fingerprint that is not cached.
pub fn uncached(addrs: &[u8], k: usize, blocks: &[u8], d: usize, heads: &[u16]) -> bool
    requires k_in_bounds { (table_bytes k ≤ length addrs.now) × (length blocks.now ≡ table_bytes d) × (d ≤ 256) }
    requires indexed { Indexed d blocks.now heads.now }
    ensures value { result ≡ not (all (cached_in (rows d blocks.now)) (rows k addrs.now)) }
    ensures value_2 { (N : Numbers) (P m n : ℕ) (rows : List (AddressRow (Fixed 32))) (free : List ℕ) (used : List (BlockRow (Fixed 32)))
        → Addrs P m n addrs.now rows → Blocks d blocks.now free used → k ≤ n → result ≡ some_uncached (labelled N) (take k rows) used }
{
    !checks::known::all_cached(addrs, k, blocks, d, heads)
}

// The place of the first of `d` used block rows whose fingerprint none of `n` held rows has.
// Where there is none, it is `d` and no `None`: `index_where`, of the paper's specs, is then the count of used rows.
pub(crate) fn unknown_place(addrs: &[u8], n: usize, blocks: &[u8], d: usize, heads: &[u16]) -> usize
    requires blocks_len { (length blocks.now ≡ table_bytes d) × (d ≤ 256) × (table_bytes n ≤ length addrs.now) }
    requires blocks_value { every unique (rows d blocks.now) ≡ true }
    requires indexed { Indexed d blocks.now heads.now }
    ensures value { result ≡ unwrap_or (find_from (unknown_in (rows n addrs.now)) 0 (rows d blocks.now)) d }
    ensures by_index { (P m : ℕ) (rows : List (AddressRow (Fixed 32))) (used : List (BlockRow (Fixed 32))) → Addrs P m n addrs.now rows
        → Blocks d blocks.now [] used → result ≡ index_where (λ u. not (known comparing u.fingerprint rows)) used }
{
    checks::known::oldest_unknown(addrs, n, blocks, d, heads).unwrap_or(d)
}

// The place of the block row that step 4 takes.
// Where an address row has each used row's fingerprint, it is 0: `victim_place` and its `or_first`, of specs/Asked.antt, give that.
pub fn victim(addrs: &[u8], n: usize, blocks: &[u8], d: usize, heads: &[u16]) -> usize
    requires blocks_len { (length blocks.now ≡ table_bytes d) × (0 < d) × (d ≤ 256) × (table_bytes n ≤ length addrs.now) }
    requires blocks_value { every unique (rows d blocks.now) ≡ true }
    requires indexed { full blocks.now ≡ true → Indexed d blocks.now heads.now }
    ensures upper_bound { result < d }
    ensures value { result ≡ cond (is_used (row_at blocks.now 0)) (or_first (unwrap_or (find_from (unknown_in (rows n addrs.now)) 0
        (rows d blocks.now)) d) d) 0 }
    ensures by_index { (P m : ℕ) (rows : List (AddressRow (Fixed 32))) (free : List ℕ) (used : List (BlockRow (Fixed 32)))
        → Addrs P m n addrs.now rows → Blocks d blocks.now free used → result ≡ victim_place rows free used }
{
    if !row::is_used(blocks, 0) {
        return 0;
    }
    let j = unknown_place(addrs, n, blocks, d, heads);
    if j < d {
        return j;
    }
    0
}

// The fingerprint in row `i`.
pub fn fp_at(t: &[u8], i: usize) -> [u8; 32]
    requires { table_bytes (i + 1) ≤ length t.now }
    ensures { (length result ≡ 32) × (result ≡ (read_address (row_at t.now i)).fingerprint) }
{
    let mut g = [0u8; 32];
    g.copy_from_slice(row::address_fingerprint(t, i));
    g
}

// The dirty byte of row `i`, as a number.
pub fn dirty_at(t: &[u8], i: usize) -> u8
    requires { table_bytes (i + 1) ≤ length t.now }
    ensures { result ≡ bit (is_dirty (row_at t.now i)) }
{
    u8::from(row::is_dirty(t, i))
}

// The place of the block row of row `i`'s fingerprint, the count of block rows where there is no row `i` or it is not cached.
// It is that count and no `None`, as in `place_of`: the contract's `index_where`, of the paper's specs, gives a number.
pub fn place_of_row(b: BoxRecord, i: usize, addrs: &[u8], blocks: &[u8]) -> usize
    requires { Sized b addrs.now blocks.now }
    ensures value { result ≡ cond (ltb i b.held) (unwrap_or (find_from (caches (read_address (row_at addrs.now i)).fingerprint) 0
        (rows b.slots blocks.now)) b.slots) b.slots }
    ensures by_index { (P m : ℕ) (rows : List (AddressRow (Fixed 32))) (free : List ℕ) (used : List (BlockRow (Fixed 32)))
        → Addrs P m b.held addrs.now rows → Blocks b.slots blocks.now free used
        → result ≡ cond (ltb i b.held) (length free + index_where (λ u. comparing.same (get_or rows i no_row).fingerprint u.fingerprint) used) b.slots }
{
    if i < b.held {
        return place_of(blocks, b.slots, row::address_fingerprint(addrs, i));
    }
    b.slots
}
