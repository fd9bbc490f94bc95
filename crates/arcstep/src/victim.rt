// The block row that is taken: "Step 4's victim is the oldest block whose fingerprint no address of T1 or T2 has". The names of T1 and T2 have a bit each; each
// held row so named marks its block row, by the index of the block rows.
ghost use Rattle.std.specs.Prelude.{◌≡◌, List, [], map, ℕ, ◌<◌, length, get_or};
ghost use Rattle.tables.specs.Rows.{HasRow, HasRows, rows, row_at};
ghost use Rattle.tables.specs.Unsound.{elem};
ghost use Rattle.tables.specs.Sound.{mark, row_address};
ghost use Rattle.tables.specs.Index.{BlockTable, Indexed};
ghost use Rattle.arcstep.specs.Runs.{Within, Runs, Fits};
ghost use Rattle.arcstep.specs.Victim.{top_place, oldest_at, victim_at};

use crate::Running;
use arclists::names;
use checks::known;
use parts::BoxRecord;
use tables::row;

// The place of the block row of row `k`, if its address has its bit; 256 for none.
pub(crate) fn top_place(
    addrs: &[u8],
    k: usize,
    seen: &[u8],
    blocks: &[u8],
    d: usize,
    heads: &[u16],
) -> usize
    requires has_row { HasRow addrs.now k × (length seen.now ≡ 8192) × BlockTable d blocks.now }
    requires k_bound { row_address (row_at addrs.now k) < 65536 }
    requires indexed { Indexed d blocks.now heads.now }
    ensures { result ≡ top_place seen.now (rows d blocks.now) (row_at addrs.now k) }
{
    if !names::row_named(addrs, k, seen) {
        return 256;
    }
    known::place_of(addrs, k, blocks, d, heads)
}

// Sets the byte of `known`, 0 everywhere at first, at that place, for each of the first `n` rows.
pub(crate) fn mark_tops(
    addrs: &[u8],
    n: usize,
    seen: &[u8],
    blocks: &[u8],
    d: usize,
    heads: &[u16],
    known: &mut [u8],
)
    requires has_rows { HasRows addrs.now n × (length seen.now ≡ 8192) × BlockTable d blocks.now × (length known.old ≡ 257) }
    requires by_index { (k : ℕ) → k < n → row_address (row_at addrs.now k) < 65536 }
    requires indexed { Indexed d blocks.now heads.now }
    requires by_index_2 { (x : ℕ) → x < length known.old → get_or known.old x 0 ≡ 0 }
    ensures known_len { length known.new ≡ 257 }
    ensures by_index_3 { (x : ℕ) → x < length known.new → get_or known.new x 0
        ≡ mark (elem x (map (top_place seen.now (rows d blocks.now)) (rows n addrs.now))) }
{
    for k in (0..n).rev() {
        let x = top_place(addrs, k, seen, blocks, d, heads);
        known[x] = 1;
    }
}

// The place of the oldest block row whose fingerprint no address of T1 or T2 has, among block rows of which none is free; their count for none.
pub(crate) fn oldest_at(
    b: BoxRecord,
    t: Running,
    addrs: &[u8],
    blocks: &[u8],
    lists: &[u8],
    heads: &[u16],
) -> usize
    requires fits { Fits b t addrs.now blocks.now lists.now }
    requires by_index { (disk : List ℕ) × (flash : List ℕ) × (R : Within b) × Runs b t disk flash addrs.now blocks.now lists.now R }
    requires indexed { Indexed b.slots blocks.now heads.now }
    ensures { (disk flash : List ℕ) (R : Within b) → Runs b t disk flash addrs.now blocks.now lists.now R
        → R.stepped.box.free ≡ [] → result ≡ oldest_at R.kept R.stepped.box }
{
    let mut seen = [0u8; 8192];
    names::names_marked(lists, t.sizes.t1 + t.sizes.t2, &mut seen);
    let mut known = [0u8; 257];
    mark_tops(addrs, t.held, &seen, blocks, b.slots, heads, &mut known);
    match known::first_unknown(blocks, b.slots, &known) {
        Some(j) => j,
        None => b.slots,
    }
}

// The place of the block row that is taken, the count of block rows for none.
pub(crate) fn victim(
    b: BoxRecord,
    t: Running,
    addrs: &[u8],
    blocks: &[u8],
    lists: &[u8],
    heads: &[u16],
) -> usize
    requires fits { Fits b t addrs.now blocks.now lists.now }
    requires by_index { (disk : List ℕ) × (flash : List ℕ) × (R : Within b) × Runs b t disk flash addrs.now blocks.now lists.now R }
    requires indexed { Indexed b.slots blocks.now heads.now }
    ensures { (disk flash : List ℕ) (R : Within b) → Runs b t disk flash addrs.now blocks.now lists.now R
        → result ≡ victim_at R.kept R.stepped.box }
{
    if !row::is_used(blocks, 0) {
        return 0;
    }
    oldest_at(b, t, addrs, blocks, lists, heads)
}
