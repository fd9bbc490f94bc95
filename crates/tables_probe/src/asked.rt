// The checks for 6, 7 and 8, and what is asked of every row of two tables that pass them.
ghost use Rattle.std.specs.Prelude.{◌≡◌, true, cond, not, ◌||◌, ◌-◌, eqb, ltb};
ghost use Rattle.tables.specs.Rows.{rows, row_at};
ghost use Rattle.tables.specs.Find.{all, find_from};
ghost use Rattle.tables.specs.Unsound.{addresses_unsound, blocks_unsound};
ghost use Rattle.tables.specs.Sound.{addresses_fit, blocks_fit, mark};
ghost use Rattle.tables.specs.Index.{Blank, Indexed, place_in, cached_in, unknown_in};
ghost use Rattle.table_laws.specs.Promises.{Passed};
ghost use Rattle.tables_probe.specs.Probe.{none, number, refused, if_sound};

use crate::fit;
use checks::{index, known, sound};

// Refusal 6.
#[unsafe(no_mangle)]
pub extern "C" fn tables_probe_addresses_unsound(t: &[u8], m: usize, n: usize, p: usize) -> bool
    ensures { result ≡ not (addresses_fit p m t.now) || addresses_unsound p m n t.now }
{
    sound::addresses_unsound(t, m, n, p)
}

// Refusal 7.
#[unsafe(no_mangle)]
pub extern "C" fn tables_probe_blocks_unsound(t: &[u8], d: usize) -> bool
    ensures { result ≡ not (blocks_fit d t.now) || blocks_unsound d t.now }
{
    let mut heads = [0u16; index::ENTRIES];
    sound::blocks_unsound(t, d, &mut heads)
}

// The first of 6, 7 and 8 that applies, or 0.
#[tactic(auto, unfolding(crate::specs::Probe::refused))]
#[unsafe(no_mangle)]
pub extern "C" fn tables_probe_refused(
    addresses: &[u8],
    m: usize,
    n: usize,
    p: usize,
    blocks: &[u8],
    d: usize,
) -> u32
    ensures { result ≡ refused p m n d addresses.now blocks.now }
{
    let mut heads = [0u16; index::ENTRIES];
    let refused = sound::tables_refused(addresses, m, n, p, blocks, d, &mut heads);
    refusal::number(&refused)
}

// Whether both tables are sound. If so, `heads`, 0 everywhere at first, is the block table's index.
#[tactic(auto, unfolding(crate::specs::Probe::refused))]
fn passed(
    addresses: &[u8],
    m: usize,
    n: usize,
    p: usize,
    blocks: &[u8],
    d: usize,
    heads: &mut [u16],
) -> bool
    requires { Blank heads.old }
    ensures value { result ≡ eqb (refused p m n d addresses.now blocks.now) 0 }
    ensures sound { result ≡ true → Passed p m n d addresses.now blocks.now }
    ensures indexed { result ≡ true → Indexed d blocks.now heads.new }
{
    sound::tables_refused(addresses, m, n, p, blocks, d, heads).is_ok()
}

// The index of the block row of held row `k`, 256 where its fingerprint isn't cached.
#[unsafe(no_mangle)]
#[tactic(auto, unfolding(crate::specs::Probe::if_sound))]
pub extern "C" fn tables_probe_place(
    addresses: &[u8],
    m: usize,
    n: usize,
    p: usize,
    blocks: &[u8],
    d: usize,
    k: usize,
) -> usize
    ensures { result ≡ if_sound p m n d addresses.now blocks.now
        (cond (ltb k n) (place_in (rows d blocks.now) (row_at addresses.now k)) none) }
{
    let mut heads = [0u16; index::ENTRIES];
    if !passed(addresses, m, n, p, blocks, d, &mut heads) || n <= k {
        return fit::NONE;
    }
    known::place_of(addresses, k, blocks, d, &heads)
}

// 1 where some held row but the newest is without its block, else 0.
#[unsafe(no_mangle)]
#[tactic(auto, unfolding(crate::specs::Probe::if_sound))]
pub extern "C" fn tables_probe_some_uncached(
    addresses: &[u8],
    m: usize,
    n: usize,
    p: usize,
    blocks: &[u8],
    d: usize,
) -> usize
    ensures { result ≡ if_sound p m n d addresses.now blocks.now
        (mark (not (all (cached_in (rows d blocks.now)) (rows (n - 1) addresses.now)))) }
{
    let mut heads = [0u16; index::ENTRIES];
    if !passed(addresses, m, n, p, blocks, d, &mut heads) {
        return fit::NONE;
    }
    usize::from(n != 0 && !known::all_cached(addresses, n - 1, blocks, d, &heads))
}

// The oldest used block row whose fingerprint no held row has.
#[unsafe(no_mangle)]
#[tactic(auto, unfolding(crate::specs::Probe::if_sound))]
pub extern "C" fn tables_probe_oldest_unknown(
    addresses: &[u8],
    m: usize,
    n: usize,
    p: usize,
    blocks: &[u8],
    d: usize,
) -> usize
    ensures { result ≡ if_sound p m n d addresses.now blocks.now
        (number (find_from (unknown_in (rows n addresses.now)) 0 (rows d blocks.now))) }
{
    let mut heads = [0u16; index::ENTRIES];
    if !passed(addresses, m, n, p, blocks, d, &mut heads) {
        return fit::NONE;
    }
    fit::number(known::oldest_unknown(addresses, n, blocks, d, &heads))
}
