// Searches and readers.
ghost use Rattle.std.specs.Prelude.{◌≡◌, cond, ◌&&◌};
ghost use Rattle.tables.specs.Rows.{rows, row_at};
ghost use Rattle.tables.specs.Records.{read_address, read_block};
ghost use Rattle.tables.specs.Find.{find_from, has_address, has_fingerprint, is_dirty, is_used, caches};
ghost use Rattle.tables_probe.specs.Probe.{none, number, fits, fits_with, fits_row};

use crate::fit;
use tables::{SourceAddress, find, row};

// The first of `n` address rows with the address `a`.
#[unsafe(no_mangle)]
pub extern "C" fn tables_probe_find_address(t: &[u8], n: usize, a: u32) -> usize
    ensures { result ≡ cond (fits n t.now) (number (find_from (has_address a) 0 (rows n t.now))) none }
{
    if !fit::fits(t, n) {
        return fit::NONE;
    }
    fit::number(find::find_address(t, n, SourceAddress(a)))
}

// The first of `n` address rows with the fingerprint `g`.
#[unsafe(no_mangle)]
pub extern "C" fn tables_probe_find_fingerprint(t: &[u8], n: usize, g: &[u8]) -> usize
    ensures { result ≡ cond (fits_with n t.now g.now)
        (number (find_from (has_fingerprint g.now) 0 (rows n t.now))) none }
{
    if !fit::fits_with(t, n, g) {
        return fit::NONE;
    }
    fit::number(find::find_fingerprint(t, n, g))
}

// The first of `n` block rows that is used and has the fingerprint `g`.
#[unsafe(no_mangle)]
pub extern "C" fn tables_probe_find_cached(t: &[u8], n: usize, g: &[u8]) -> usize
    ensures { result ≡ cond (fits_with n t.now g.now) (number (find_from (caches g.now) 0 (rows n t.now))) none }
{
    if !fit::fits_with(t, n, g) {
        return fit::NONE;
    }
    fit::number(find::find_cached(t, n, g))
}

// The address in row `i` of `n`.
#[unsafe(no_mangle)]
pub extern "C" fn tables_probe_address_at(t: &[u8], n: usize, i: usize) -> u32
    ensures { result ≡ cond (fits_row n t.now i) (read_address (row_at t.now i)).address none }
{
    if !fit::fits_row(t, n, i) {
        return u32::MAX;
    }
    row::address_at(t, i).0
}

// The slot in row `i` of `n`.
#[unsafe(no_mangle)]
pub extern "C" fn tables_probe_slot_at(t: &[u8], n: usize, i: usize) -> u32
    ensures { result ≡ cond (fits_row n t.now i) (read_block (row_at t.now i)).slot none }
{
    if !fit::fits_row(t, n, i) {
        return u32::MAX;
    }
    row::slot_at(t, i).0
}

// Whether row `i` of `n` of an address table is dirty.
#[unsafe(no_mangle)]
pub extern "C" fn tables_probe_is_dirty(t: &[u8], n: usize, i: usize) -> bool
    ensures { result ≡ fits_row n t.now i && is_dirty (row_at t.now i) }
{
    fit::fits_row(t, n, i) && row::is_dirty(t, i)
}

// Whether row `i` of `n` of a block table is used.
#[unsafe(no_mangle)]
pub extern "C" fn tables_probe_is_used(t: &[u8], n: usize, i: usize) -> bool
    ensures { result ≡ fits_row n t.now i && is_used (row_at t.now i) }
{
    fit::fits_row(t, n, i) && row::is_used(t, i)
}
