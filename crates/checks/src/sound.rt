// Whether a table's bytes are those of a sound table.
ghost use Rattle.std.specs.Prelude.{◌≡◌, true, false, not, cond, ◌&&◌, ◌||◌, map, ℕ, suc, ◌<◌, ◌≤◌, length, drop, OnOk};
ghost use Rattle.tables.specs.Rows.{rows, row_at, table_bytes, HasRow, HasRows};
ghost use Rattle.tables.specs.Find.{all, every, is_used};
ghost use Rattle.tables.specs.Unsound.{addresses_unsound, blocks_unsound, dirty_uncached};
ghost use Rattle.tables.specs.Sound.{address_ok, distinct, row_address, zero_row, sound_addresses, addresses_fit, blocks_fit};
ghost use Rattle.refusal.specs.Numbers.{number_of};
ghost use Rattle.tables.specs.Index.{heads_length, Blank, Linked, Indexed, row_ok};

use crate::{index, known};
use refusal::Refusal;
use tables::{distinct, row};

// Whether row `k` is a held address row's, with an address below `p`.
pub(crate) fn address_ok(t: &[u8], k: usize, p: u32) -> bool
    requires { HasRow t.now k }
    ensures { result ≡ address_ok p (row_at t.now k) }
{
    row::address_at(t, k).0 < p && row::seated_tail_ok(t, k)
}

// Whether each of the first `n` rows is one of a held address.
pub(crate) fn addresses_ok(t: &[u8], n: usize, p: u32) -> bool
    requires { table_bytes n ≤ length t.now }
    ensures { result ≡ all (address_ok p) (rows n t.now) }
{
    (0..n).all(|k| address_ok(t, k, p))
}

// Whether the rows from row `n` on, of `m`, are zero.
pub(crate) fn rows_zero(t: &[u8], n: usize, m: usize) -> bool
    requires { HasRows t.now m }
    ensures { result ≡ all zero_row (drop n (rows m t.now)) }
{
    (n..m).all(|k| row::is_zero(t, k))
}

// Whether the addresses of the first `n` rows, each below `p`, are all different.
pub(crate) fn distinct_below(t: &[u8], n: usize, p: u32) -> bool
    requires has_rows { HasRows t.now n × (p ≤ 65536) }
    requires by_index { (k : ℕ) → k < n → row_address (row_at t.now k) < p }
    ensures { result ≡ distinct (map row_address (rows n t.now)) }
{
    if p <= 4096 {
        return distinct::few_distinct(t, n);
    }
    distinct::addresses_distinct(t, n)
}

// Whether the address table is sound: `n` rows of `m` held, over `p` disk blocks.
#[tactic(auto, unfolding(tables::specs::Sound::sound_addresses))]
pub(crate) fn addresses_sound(t: &[u8], m: usize, n: usize, p: u32) -> bool
    requires { (length t.now ≡ table_bytes m) × (p ≤ 65536) }
    ensures { result ≡ sound_addresses p m n t.now }
{
    n <= m && addresses_ok(t, n, p) && distinct_below(t, n, p) && rows_zero(t, n, m)
}

// Whether row `k` of `d` is a sound block row by itself; `used` tells whether the rows behind it are all used.
pub(crate) fn row_ok(t: &[u8], d: usize, k: usize, used: bool) -> bool
    requires k_lt_d { (k < d) × (length t.now ≡ table_bytes d) }
    requires used_value { used ≡ all is_used (drop (suc k) (rows d t.now)) }
    ensures { result ≡ row_ok d (row_at t.now k) (drop (suc k) (rows d t.now)) }
{
    let x = row::slot_at(t, k).0 as usize;
    if d <= x || !row::tail_ok(t, k) {
        return false;
    }
    if row::is_used(t, k) {
        used
    } else {
        row::no_fingerprint(t, k)
    }
}

// Whether each of the `d` rows is a sound block row by itself.
pub(crate) fn rows_ok(t: &[u8], d: usize) -> bool
    requires { length t.now ≡ table_bytes d }
    ensures { result ≡ every (row_ok d) (rows d t.now) }
{
    let mut used = true;
    for k in (0..d).rev() {
        if !row_ok(t, d, k, used) {
            return false;
        }
        // Behind a used row that passes, all rows are used.
        used = row::is_used(t, k);
    }
    true
}

// Whether the block table of `d` rows is sound. If so, `heads`, 0 everywhere at first, is its index.
pub(crate) fn blocks_sound(t: &[u8], d: usize, heads: &mut [u16]) -> bool
    requires t_len { (length t.now ≡ table_bytes d) × (d ≤ 256) }
    requires blank { Blank heads.old }
    ensures value { result ≡ not (blocks_unsound d t.now) }
    ensures linked { result ≡ true → Linked 0 heads.new (rows d t.now) }
    ensures heads_len { length heads.new ≡ heads_length }
{
    rows_ok(t, d) && distinct::slots_distinct(t, d) && index::build(t, d, heads)
}

// Refusal 6, of any bytes and numbers: whether the address table of `m` rows, `n` of them held, is unsound over `p` disk blocks.
#[tactic(auto, unfolding(tables::specs::Sound::addresses_fit))]
pub fn addresses_unsound(t: &[u8], m: usize, n: usize, p: usize) -> bool
    ensures { result ≡ not (addresses_fit p m t.now) || addresses_unsound p m n t.now }
{
    65536 < p || 1024 < m || t.len() != m * row::BYTES || !addresses_sound(t, m, n, p as u32)
}

// Refusal 7, of any bytes and numbers: whether the block table of `d` rows is unsound. If not, `heads`, 0 everywhere at first, is its index.
#[tactic(auto, unfolding(tables::specs::Sound::blocks_fit))]
pub fn blocks_unsound(t: &[u8], d: usize, heads: &mut [u16]) -> bool
    requires { Blank heads.old }
    ensures value { result ≡ not (blocks_fit d t.now) || blocks_unsound d t.now }
    ensures linked { result ≡ false → Linked 0 heads.new (rows d t.now) }
    ensures heads_len { length heads.new ≡ heads_length }
{
    256 < d || t.len() != d * row::BYTES || !blocks_sound(t, d, heads)
}

// The first of 6, 7 and 8 that applies, of any bytes and numbers. Where none does `heads`, 0 everywhere at first, is the block table's index.
pub fn tables_refused(
    addresses: &[u8],
    m: usize,
    n: usize,
    p: usize,
    blocks: &[u8],
    d: usize,
    heads: &mut [u16],
) -> Result<(), Refusal>
    requires { Blank heads.old }
    ensures value { number_of result ≡ cond (not (addresses_fit p m addresses.now) || addresses_unsound p m n addresses.now) 6
        (cond (not (blocks_fit d blocks.now) || blocks_unsound d blocks.now) 7
        (cond (dirty_uncached n d addresses.now blocks.now) 8 0)) }
    ensures indexed { OnOk result (Indexed d blocks.now heads.new) }
    ensures heads_len { length heads.new ≡ heads_length }
{
    if addresses_unsound(addresses, m, n, p) {
        return Err(Refusal::BadAddresses);
    }
    if blocks_unsound(blocks, d, heads) {
        return Err(Refusal::BadBlocks);
    }
    if known::dirty_cached(addresses, n, blocks, d, heads) {
        return Ok(());
    }
    Err(Refusal::DirtyUncached)
}
