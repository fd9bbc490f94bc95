// Rows taken out, added, moved and changed, and fresh tables.
ghost use Rattle.std.specs.Prelude.{◌≡◌, cond};
ghost use Rattle.tables.specs.Records.{address_bytes, address_row, bytes2, fresh_addresses, fresh_blocks};
ghost use Rattle.tables.specs.Sound.{blocks_fit};
ghost use Rattle.tables_probe.specs.Probe.{fits_more, fits_row, fits_table, fits_block, fits_block_with};
ghost use Rattle.tables.specs.Operations.{row_out, row_added, row_cleaned, row_newest, row_freed, row_filled};

use crate::fit;
use tables::{SourceAddress, fresh, put, row, shift};

// Takes row `i` out of the first `n`.
#[unsafe(no_mangle)]
pub extern "C" fn tables_probe_remove_row(t: &mut [u8], n: usize, i: usize)
    ensures { t.new ≡ cond (fits_row n t.old i) (row_out n i t.old) t.old }
{
    if fit::fits_row(t, n, i) {
        shift::remove_row(t, n, i);
    }
}

// Adds a row behind the first `n`.
#[unsafe(no_mangle)]
pub extern "C" fn tables_probe_push_address(
    t: &mut [u8],
    n: usize,
    a: u32,
    g: &[u8],
    dirty: u8,
    seat: u16,
)
    ensures { t.new ≡ cond (fits_more n t.old g.now)
        (row_added n (address_bytes (address_row a g.now dirty (bytes2 seat))) t.old) t.old }
{
    if fit::fits_more(t, n, g) {
        put::push_address(t, n, SourceAddress(a), g, dirty, seat);
    }
}

// Makes row `i` of the first `n` clean.
#[unsafe(no_mangle)]
pub extern "C" fn tables_probe_set_clean(t: &mut [u8], n: usize, i: usize)
    ensures { t.new ≡ cond (fits_row n t.old i) (row_cleaned i t.old) t.old }
{
    if fit::fits_row(t, n, i) {
        row::set_clean(t, i);
    }
}

// Moves block row `i` of `d` to the end.
#[unsafe(no_mangle)]
pub extern "C" fn tables_probe_to_newest(t: &mut [u8], d: usize, i: usize)
    ensures { t.new ≡ cond (fits_block d t.old i) (row_newest d i t.old) t.old }
{
    if fit::fits_block(t, d, i) {
        shift::to_newest(t, d, i);
    }
}

// Frees block row `i` of `d`, and moves it to the front.
#[unsafe(no_mangle)]
pub extern "C" fn tables_probe_to_front(t: &mut [u8], d: usize, i: usize)
    ensures { t.new ≡ cond (fits_block d t.old i) (row_freed d i t.old) t.old }
{
    if fit::fits_block(t, d, i) {
        shift::to_front(t, d, i);
    }
}

// Fills block row `i` of `d` with the fingerprint `g`, and moves it to the end.
#[unsafe(no_mangle)]
pub extern "C" fn tables_probe_put_block(t: &mut [u8], d: usize, i: usize, g: &[u8])
    ensures { t.new ≡ cond (fits_block_with d t.old i g.now) (row_filled d i g.now t.old)
        t.old }
{
    if fit::fits_block_with(t, d, i, g) {
        put::put_block(t, d, i, g);
    }
}

// Makes an address table of `m` rows fresh.
#[unsafe(no_mangle)]
pub extern "C" fn tables_probe_fresh_addresses(t: &mut [u8], m: usize)
    ensures { t.new ≡ cond (fits_table m t.old) (fresh_addresses m) t.old }
{
    if fit::fits_table(t, m) {
        fresh::fresh_addresses(t, m);
    }
}

// Makes a block table of `d` rows fresh.
#[unsafe(no_mangle)]
pub extern "C" fn tables_probe_fresh_blocks(t: &mut [u8], d: usize)
    ensures { t.new ≡ cond (blocks_fit d t.old) (fresh_blocks d) t.old }
{
    if fit::blocks_fit(t, d) {
        fresh::fresh_blocks(t, d);
    }
}
