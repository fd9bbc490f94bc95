// "refusal 8 also covers an address of T1 or T2 without its block": with a bit for each address of T1 and T2.
ghost use Rattle.std.specs.Prelude.{◌≡◌, true, List, ℕ, ◌+◌, ◌*◌, ◌^◌, ◌≤◌, ◌<◌, length};
ghost use Rattle.tables.specs.Rows.{HasRow, HasRows, rows, row_at};
ghost use Rattle.tables.specs.Find.{all};
ghost use Rattle.tables.specs.Sound.{row_address};
ghost use Rattle.tables.specs.Index.{BlockTable, Indexed};
ghost use Rattle.paper.specs.Cache.{Counters};
ghost use Rattle.paper.specs.Engine.{labelled};
ghost use Rattle.paper.specs.Lent.{box_in};
ghost use Rattle.arc.specs.Arc.{base_numbers};
ghost use Rattle.arc.specs.ArcLent.{top_uncached, tops_in};
ghost use Rattle.arclists.specs.Names.{fine};
ghost use Rattle.arclists.specs.Holding.{rec_of};
ghost use Rattle.refusals.specs.Given.{lent};
ghost use Rattle.arcrefusals.specs.Given.{sizes_of, base_of};
ghost use Rattle.arcrefusals.specs.Checks.{top_ok};

use crate::ArcRecord;
use arclists::{ListSizes, names};
use checks::known;

// Whether the address of row `k` has no bit, or its fingerprint is cached.
pub(crate) fn top_ok(
    addresses: &[u8],
    k: usize,
    seen: &[u8],
    blocks: &[u8],
    d: usize,
    heads: &[u16],
) -> bool
    requires has_row { HasRow addresses.now k × (length seen.now ≡ 8192) × BlockTable d blocks.now }
    requires k_bound { row_address (row_at addresses.now k) < 65536 }
    requires indexed { Indexed d blocks.now heads.now }
    ensures { result ≡ top_ok seen.now (rows d blocks.now) (row_at addresses.now k) }
{
    // 256 is what known::place_of gives where no block row has the fingerprint.
    !names::row_named(addresses, k, seen) || known::place_of(addresses, k, blocks, d, heads) < 256
}

// Whether that holds of each of the first `n` rows.
pub(crate) fn tops_ok(
    addresses: &[u8],
    n: usize,
    seen: &[u8],
    blocks: &[u8],
    d: usize,
    heads: &[u16],
) -> bool
    requires has_rows { HasRows addresses.now n × (length seen.now ≡ 8192) × BlockTable d blocks.now }
    requires by_index { (k : ℕ) → k < n → row_address (row_at addresses.now k) < 65536 }
    requires indexed { Indexed d blocks.now heads.now }
    ensures { result ≡ all (top_ok seen.now (rows d blocks.now)) (rows n addresses.now) }
{
    (0..n).all(|k| top_ok(addresses, k, seen, blocks, d, heads))
}

// How many addresses T1 and T2 have.
pub(crate) fn tops_of(s: ListSizes) -> usize
    requires { (s.t1 + s.t2) * 4 < 2 ^ 64 }
    ensures { result ≡ s.t1 + s.t2 }
{
    s.t1 + s.t2
}

// Whether an address of T1 or T2 is without its block, in tables and lists that pass 6 and 7.
pub fn top_uncached(
    a: ArcRecord,
    addresses: &[u8],
    blocks: &[u8],
    lists: &[u8],
    heads: &[u16],
) -> bool
    requires has_rows { HasRows addresses.now a.held × BlockTable a.sizes.cached blocks.now × ((a.sizes.t1 + a.sizes.t2) * 4 ≤ length lists.now) }
    requires by_index { (k : ℕ) → k < a.held → row_address (row_at addresses.now k) < 65536 }
    requires lists_value { fine (tops_in (rec_of a.sizes) lists.now) ≡ true }
    requires indexed { Indexed a.sizes.cached blocks.now heads.now }
    ensures { (disk flash : List ℕ) (k : Counters) → result ≡ top_uncached (labelled (base_numbers (sizes_of a))) (box_in (base_numbers (sizes_of a))
        (lent (base_of a) disk flash addresses.now blocks.now k)) (tops_in (rec_of a.sizes) lists.now) }
{
    let mut seen = [0u8; 8192];
    names::names_marked(lists, tops_of(a.sizes), &mut seen);
    !tops_ok(addresses, a.held, &seen, blocks, a.sizes.cached, heads)
}
