// An index over a block table's used rows: where the search for a fingerprint starts, and where it goes on.
ghost use Rattle.std.specs.Prelude.{◌≡◌, true, ℕ, suc, ◌+◌, ◌<◌, ◌≤◌, length, get_or, drop, is_none};
ghost use Rattle.tables.specs.Rows.{table_bytes, HasRows, IsPrint, rows, row_at};
ghost use Rattle.tables.specs.Records.{read_block};
ghost use Rattle.tables.specs.Find.{every, find_from, caches};
ghost use Rattle.tables.specs.Index.{heads_length, BlockTable, Blank, bucket, choice, entry, In, Goes, onward, Linked, Indexed, unique};

use tables::{find, row};

// The entries of an index: of 4,096 buckets, of 256 rows, and which bytes of a fingerprint give its bucket.
pub const ENTRIES: usize = 4353;

// The bucket of the fingerprint `g`, by its bytes `c` and `c + 1`.
pub(crate) fn bucket_of(g: &[u8], c: usize) -> usize
    requires { IsPrint g.now × (c + 2 ≤ 32) }
    ensures { (result ≡ bucket c g.now) × (result < 4096) }
{
    usize::from(u16::from_le_bytes([g[c], g[c + 1]]) % 4096)
}

// The bucket of the fingerprint `g`, by the bytes that `heads` chooses.
pub(crate) fn bucket_in(heads: &[u16], g: &[u8]) -> usize
    requires { (length heads.now ≡ heads_length) × (choice heads.now + 2 ≤ 32) × IsPrint g.now }
    ensures { (result ≡ bucket (choice heads.now) g.now) × (result < 4096) }
{
    bucket_of(g, usize::from(heads[4352]))
}

// The row that entry `x` of `heads` stands for, 256 where it stands for none.
pub(crate) fn entry(heads: &[u16], x: usize) -> usize
    requires { (x < length heads.now) × (get_or heads.now x 0 ≤ 256) }
    ensures { result ≡ entry heads.now x }
{
    256 - usize::from(heads[x])
}

// The index of the first of `d` block rows from row `from` on, a row of the bucket of `g`, that is used and has the fingerprint `g`.
pub(crate) fn walk(t: &[u8], d: usize, heads: &[u16], from: usize, g: &[u8]) -> Option<usize>
    requires block_table { BlockTable d t.now × IsPrint g.now × (length heads.now ≡ heads_length) }
    requires fact { from < length (rows d t.now) → In (choice heads.now) (rows d t.now) (bucket (choice heads.now) g.now) from }
    requires by_index { (r x : ℕ) → from ≤ r → r < length (rows d t.now) → In (choice heads.now) (rows d t.now) x r
        → Goes (choice heads.now) (rows d t.now) x r (onward heads.now r) }
    ensures { result ≡ find_from (caches g.now) from (drop from (rows d t.now)) }
{
    let mut k = from;
    // The next row is read from the table: no range gives it.
    while k < d {
        if find::caches_fingerprint(t, k, g) {
            return Some(k);
        }
        k = entry(heads, 4096 + k);
    }
    None
}

// The index of the first of `d` block rows that is used and has the fingerprint `g`.
pub fn find(t: &[u8], d: usize, heads: &[u16], g: &[u8]) -> Option<usize>
    requires block_table { BlockTable d t.now × IsPrint g.now }
    requires indexed { Indexed d t.now heads.now }
    ensures { result ≡ find_from (caches g.now) 0 (rows d t.now) }
{
    let x = bucket_in(heads, g);
    let from = entry(heads, x);
    walk(t, d, heads, from, g)
}

// Whether no used row of `d` from row `from` on, a row of the bucket of row `k`, has its fingerprint.
pub(crate) fn alone(t: &[u8], d: usize, heads: &[u16], k: usize, from: usize) -> bool
    requires k_lt_d { (k < d) × (d ≤ 256) × (length t.now ≡ table_bytes d) × (length heads.now ≡ heads_length) }
    requires fact { from < length (rows d t.now)
        → In (choice heads.now) (rows d t.now) (bucket (choice heads.now) (read_block (row_at t.now k)).fingerprint) from }
    requires by_index { (r x : ℕ) → from ≤ r → r < length (rows d t.now) → In (choice heads.now) (rows d t.now) x r
        → Goes (choice heads.now) (rows d t.now) x r (onward heads.now r) }
    ensures { result ≡ is_none (find_from (caches (read_block (row_at t.now k)).fingerprint) from (drop from (rows d t.now))) }
{
    walk(t, d, heads, from, row::block_fingerprint(t, k)).is_none()
}

// Puts row `k` of `d` before the rows behind it, whose index `heads` is, if it is used. Whether none of them has its fingerprint.
pub(crate) fn put_row(t: &[u8], d: usize, heads: &mut [u16], k: usize) -> bool
    requires k_lt_d { (k < d) × (d ≤ 256) × (length t.now ≡ table_bytes d) × (length heads.old ≡ heads_length) }
    requires linked { Linked (k + 1) heads.old (rows d t.now) }
    ensures value { result ≡ unique (row_at t.now k) (drop (suc k) (rows d t.now)) }
    ensures linked_2 { result ≡ true → Linked k heads.new (rows d t.now) }
    ensures heads_len { length heads.new ≡ heads_length }
{
    if !row::is_used(t, k) {
        return true;
    }
    let x = bucket_in(heads, row::block_fingerprint(t, k));
    let from = entry(heads, x);
    if !alone(t, d, heads, k, from) {
        return false;
    }
    heads[4096 + k] = heads[x];
    heads[x] = (256 - k) as u16;
    true
}

// Whether more than eight of the first `d` rows that are used are of one bucket by the bytes `c` and `c + 1`.
pub(crate) fn is_crowded(t: &[u8], d: usize, c: u16) -> bool
    requires { HasRows t.now d × (c + 2 ≤ 32) }
    ensures { result ≡ true → 8 < d }
{
    let mut counts = [0u8; 4096];
    for k in 0..d {
        if row::is_used(t, k) {
            let x = bucket_of(row::block_fingerprint(t, k), usize::from(c));
            if 8 <= counts[x] {
                return true;
            }
            counts[x] += 1;
        }
    }
    false
}

// Which bytes are to give the buckets of `d` rows: the first two, or others where too many rows would be of one bucket by them.
// Every choice is right, and decides only how long the searches take.
pub(crate) fn choose(t: &[u8], d: usize) -> u16
    requires { HasRows t.now d }
    ensures { result + 2 ≤ 32 }
{
    if d <= 16 {
        return 0;
    }
    for c in (0..30).step_by(2) {
        if !is_crowded(t, d, c) {
            return c;
        }
    }
    30
}

// Whether no two used rows of `d` have one fingerprint. If so, `heads`, 0 everywhere at first, is their index.
pub fn build(t: &[u8], d: usize, heads: &mut [u16]) -> bool
    requires t_len { (length t.now ≡ table_bytes d) × (d ≤ 256) }
    requires blank { Blank heads.old }
    ensures value { result ≡ every unique (rows d t.now) }
    ensures linked { result ≡ true → Linked 0 heads.new (rows d t.now) }
    ensures heads_len { length heads.new ≡ heads_length }
{
    heads[4352] = choose(t, d);
    for k in (0..d).rev() {
        if !put_row(t, d, heads, k) {
            return false;
        }
    }
    true
}
