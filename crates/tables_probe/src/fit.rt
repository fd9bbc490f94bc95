// Where what is given fits, and a row's index as a number.
ghost use Rattle.std.specs.Prelude.{◌≡◌, true, ◌+◌, ◌*◌, ◌≤◌, ◌<◌, length};
ghost use Rattle.tables.specs.Sound.{blocks_fit};
ghost use Rattle.tables_probe.specs.Probe.{number, fits, fits_with, fits_row, fits_more, fits_table, fits_block, fits_block_with};
ghost use Rattle.tables.specs.Rows.{table_bytes};

use tables::row;

// The answer where there is no such row, or what is given does not fit.
pub(crate) const NONE: usize = 4294967295;

// A row's index, NONE where there is none.
pub(crate) fn number(found: Option<usize>) -> usize
    ensures { result ≡ number found }
{
    found.unwrap_or(NONE)
}

// Whether `n` rows, at most 1,024, are in `t`.
#[tactic(auto, unfolding(crate::specs::Probe::fits))]
pub(crate) fn fits(t: &[u8], n: usize) -> bool
    ensures value { result ≡ fits n t.now }
    ensures n_bound { result ≡ true → (n ≤ 1024) × (table_bytes n ≤ length t.now) }
{
    n <= 1024 && n * row::BYTES <= t.len()
}

// Whether they are, and `g` has 32 bytes.
pub(crate) fn fits_with(t: &[u8], n: usize, g: &[u8]) -> bool
    ensures value { result ≡ fits_with n t.now g.now }
    ensures n_in_bounds { result ≡ true → (table_bytes n ≤ length t.now) × (length g.now ≡ 32) }
{
    g.len() == 32 && fits(t, n)
}

// Whether row `i` is one of `n` that are in `t`.
pub(crate) fn fits_row(t: &[u8], n: usize, i: usize) -> bool
    ensures value { result ≡ fits_row n t.now i }
    ensures i_lt_n { result ≡ true → (i < n) × (table_bytes n ≤ length t.now) }
{
    i < n && fits(t, n)
}

// Whether a row more is in `t` behind `n`, and `g` has 32 bytes.
pub(crate) fn fits_more(t: &[u8], n: usize, g: &[u8]) -> bool
    ensures value { result ≡ fits_more n t.now g.now }
    ensures n_in_bounds { result ≡ true → (table_bytes (n + 1) ≤ length t.now) × (length g.now ≡ 32) }
{
    g.len() == 32 && n <= 1023 && (n + 1) * row::BYTES <= t.len()
}

// Whether `t` is a table of `m` rows, at most 1,024.
pub(crate) fn fits_table(t: &[u8], m: usize) -> bool
    ensures value { result ≡ fits_table m t.now }
    ensures t_len { result ≡ true → length t.now ≡ table_bytes m }
{
    m <= 1024 && t.len() == m * row::BYTES
}

// Whether `t` is a block table of `d` rows.
#[tactic(auto, unfolding(tables::specs::Sound::blocks_fit))]
pub(crate) fn blocks_fit(t: &[u8], d: usize) -> bool
    ensures value { result ≡ blocks_fit d t.now }
    ensures d_bound { result ≡ true → (d ≤ 256) × (length t.now ≡ table_bytes d) }
{
    d <= 256 && t.len() == d * row::BYTES
}

// Whether row `i` is one of the `d` of a block table.
pub(crate) fn fits_block(t: &[u8], d: usize, i: usize) -> bool
    ensures value { result ≡ fits_block d t.now i }
    ensures i_lt_d { result ≡ true → (i < d) × (length t.now ≡ table_bytes d) }
{
    i < d && blocks_fit(t, d)
}

// Whether it is, and `g` has 32 bytes.
pub(crate) fn fits_block_with(t: &[u8], d: usize, i: usize, g: &[u8]) -> bool
    ensures value { result ≡ fits_block_with d t.now i g.now }
    ensures i_lt_d { result ≡ true → (i < d) × ((length t.now ≡ table_bytes d) × (length g.now ≡ 32)) }
{
    g.len() == 32 && fits_block(t, d, i)
}
