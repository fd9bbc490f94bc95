// Blocks of dirty rows copied to the disk, and the rows made clean.
ghost use Rattle.std.specs.Prelude.{◌≡◌, true, ◌<◌, ◌≤◌, length, get_or};
ghost use Rattle.paper.specs.Cache.{Box, slot_of, reach, excess};
ghost use Rattle.paper.specs.Engine.{Fixed};
ghost use Rattle.parts.specs.Rep.{Sized, Rep, LentBox, LentWith, no_row, copied_row, copied_rows, engine};
ghost use Rattle.parts.specs.Asked.{slot_in};
ghost use Rattle.tables.specs.Index.{Indexed};
ghost use Rattle.tables.specs.Rows.{table_bytes};

use crate::{BoxRecord, limit, rows};
use checks::known;
use tables::{FlashSlot, find, row};

// The slot of the block row at `place` among `d`, 0 where there is none.
pub(crate) fn slot_in(t: &[u8], d: usize, place: usize) -> FlashSlot
    requires { length t.now ≡ table_bytes d }
    ensures { result.0 ≡ slot_in t.now d place }
{
    if d <= place {
        return FlashSlot(0);
    }
    row::slot_at(t, place)
}

// Copies the block of row `i`, which is in `slot`, to its disk address and makes the row clean, if it is dirty. How many blocks that is.
pub(crate) fn copy_row(
    b: BoxRecord,
    i: usize,
    disk: &mut [u8],
    flash: &[u8],
    addrs: &mut [u8],
    blocks: &[u8],
    slot: FlashSlot,
) -> usize
    requires i_lt_held { (i < b.held) × (slot.0 < b.slots) × (b.held ≤ b.rows) × (length addrs.old ≡ table_bytes b.rows) }
    requires lent_box { LentBox b disk.old flash.now addrs.old blocks.now }
    ensures upper_bound { result ≤ 1 }
    ensures addrs_after { (s : Box (Fixed 32) (Fixed b.size)) → Rep b disk.old flash.now addrs.old blocks.now s
        → slot_of (engine b) (get_or s.rows i no_row).fingerprint s.used ≡ slot.0
        → record { count = result; disk = disk.new; addrs = addrs.new } ≡ copied_row b (λ f. true) s i }
{
    if !row::is_dirty(addrs, i) {
        return 0;
    }
    let a = row::address_at(addrs, i);
    block::put_address(block::in_slot(flash, slot, b.size), disk, a, b.size);
    row::set_clean(addrs, i);
    1
}

// The same, where the slot has to be found; `heads` is the index of the block rows.
pub fn flush_row(
    b: BoxRecord,
    i: usize,
    disk: &mut [u8],
    flash: &[u8],
    addrs: &mut [u8],
    blocks: &[u8],
    heads: &[u16],
) -> usize
    requires i_lt_held { (i < b.held) × (0 < b.slots) × (b.slots ≤ 256) × Sized b addrs.old blocks.now }
    requires lent_box { LentBox b disk.old flash.now addrs.old blocks.now }
    requires indexed { Indexed b.slots blocks.now heads.now }
    ensures upper_bound { result ≤ 1 }
    ensures addrs_after { (s : Box (Fixed 32) (Fixed b.size)) → Rep b disk.old flash.now addrs.old blocks.now s
        → record { count = result; disk = disk.new; addrs = addrs.new } ≡ copied_row b (λ f. true) s i }
{
    if !row::is_dirty(addrs, i) {
        return 0;
    }
    let slot = slot_in(
        blocks,
        b.slots,
        known::place_of(addrs, i, blocks, b.slots, heads),
    );
    copy_row(b, i, disk, flash, addrs, blocks, slot)
}

// The same of row `i` if it also has the fingerprint `g`, whose block is in `slot`.
pub(crate) fn clean_row(
    b: BoxRecord,
    i: usize,
    disk: &mut [u8],
    flash: &[u8],
    addrs: &mut [u8],
    blocks: &[u8],
    g: &[u8],
    slot: FlashSlot,
) -> usize
    requires i_lt_held { (i < b.held) × (slot.0 < b.slots) × (length g.now ≡ 32) × (b.held ≤ b.rows) × (length addrs.old ≡ table_bytes b.rows) }
    requires lent_box { LentBox b disk.old flash.now addrs.old blocks.now }
    ensures upper_bound { result ≤ 1 }
    ensures addrs_after { (s : Box (Fixed 32) (Fixed b.size)) → Rep b disk.old flash.now addrs.old blocks.now s
        → (v : Fixed 32) → v.0 ≡ g.now → slot_of (engine b) v s.used ≡ slot.0
        → record { count = result; disk = disk.new; addrs = addrs.new } ≡ copied_row b ((engine b).same v) s i }
{
    if !row::is_dirty(addrs, i) {
        return 0;
    }
    if !find::fingerprint_is(addrs, i, g) {
        return 0;
    }
    copy_row(b, i, disk, flash, addrs, blocks, slot)
}

// The same of held rows, oldest first, until `k` of them were dirty.
pub fn flush_rows(
    b: BoxRecord,
    k: usize,
    disk: &mut [u8],
    flash: &[u8],
    addrs: &mut [u8],
    blocks: &[u8],
    heads: &[u16],
) -> usize
    requires slots_nonzero { (0 < b.slots) × (b.slots ≤ 256) × Sized b addrs.old blocks.now }
    requires lent_box { LentBox b disk.old flash.now addrs.old blocks.now }
    requires indexed { Indexed b.slots blocks.now heads.now }
    ensures upper_bound { result ≤ b.held }
    ensures addrs_after { (s : Box (Fixed 32) (Fixed b.size)) → Rep b disk.old flash.now addrs.old blocks.now s
        → record { count = result; disk = disk.new; addrs = addrs.new } ≡ copied_rows b (λ f. true) s (reach (engine b) k s.rows) }
{
    let mut count = 0;
    for i in 0..b.held {
        if k <= count {
            return count;
        }
        count += flush_row(b, i, disk, flash, addrs, blocks, heads);
    }
    count
}

// The same of row `i` alone: its slot is searched for, and no index is asked.
pub fn copy_one(
    b: BoxRecord,
    i: usize,
    disk: &mut [u8],
    flash: &[u8],
    addrs: &mut [u8],
    blocks: &[u8],
) -> usize
    requires i_lt_held { (i < b.held) × (0 < b.slots) × Sized b addrs.old blocks.now }
    requires lent_box { LentBox b disk.old flash.now addrs.old blocks.now }
    ensures upper_bound { result ≤ 1 }
    ensures addrs_after { (s : Box (Fixed 32) (Fixed b.size)) → Rep b disk.old flash.now addrs.old blocks.now s
        → record { count = result; disk = disk.new; addrs = addrs.new } ≡ copied_row b (λ f. true) s i }
{
    let slot = slot_in(blocks, b.slots, rows::place_of_row(b, i, addrs, blocks));
    copy_row(b, i, disk, flash, addrs, blocks, slot)
}

// U8: the same of the oldest dirty row, if more rows are dirty than the limit.
pub fn limit_rows(
    b: BoxRecord,
    disk: &mut [u8],
    flash: &[u8],
    addrs: &mut [u8],
    blocks: &[u8],
) -> usize
    requires slots_nonzero { (0 < b.slots) × Sized b addrs.old blocks.now }
    requires lent_box { LentBox b disk.old flash.now addrs.old blocks.now }
    ensures upper_bound { result ≤ 1 }
    ensures addrs_after { (s : Box (Fixed 32) (Fixed b.size)) → Rep b disk.old flash.now addrs.old blocks.now s
        → record { count = result; disk = disk.new; addrs = addrs.new }
        ≡ copied_rows b (λ f. true) s (reach (engine b) (excess (engine b) b.limit s.rows) s.rows) }
{
    let i = limit::excess_row(b, addrs);
    if b.held <= i {
        return 0;
    }
    copy_one(b, i, disk, flash, addrs, blocks)
}

// The same of every held row that has the fingerprint `g`, whose block is in `slot`.
pub fn clean_rows(
    b: BoxRecord,
    disk: &mut [u8],
    flash: &[u8],
    addrs: &mut [u8],
    blocks: &[u8],
    g: &[u8],
    slot: FlashSlot,
) -> usize
    requires slot_lt_slots { (slot.0 < b.slots) × (length g.now ≡ 32) × (b.held ≤ b.rows) × (length addrs.old ≡ table_bytes b.rows) }
    requires lent_with { LentWith b disk.old flash.now addrs.old blocks.now g.now slot.0 }
    ensures upper_bound { result ≤ b.held }
    ensures addrs_after { (s : Box (Fixed 32) (Fixed b.size)) → Rep b disk.old flash.now addrs.old blocks.now s
        → (v : Fixed 32) → v.0 ≡ g.now → slot_of (engine b) v s.used ≡ slot.0
        → record { count = result; disk = disk.new; addrs = addrs.new } ≡ copied_rows b ((engine b).same v) s b.held }
{
    let mut count = 0;
    for i in 0..b.held {
        count += clean_row(b, i, disk, flash, addrs, blocks, g, slot);
    }
    count
}
