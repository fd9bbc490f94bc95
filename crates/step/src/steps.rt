// The steps of one request.
ghost use Rattle.std.specs.Prelude.{◌≡◌, Bool, true, List, [], ◌∷◌, ◌++◌, ℕ, ◌+◌, ◌*◌, ◌-◌, ◌<◌, ◌≤◌, length, get_or, take, set, eqb};
ghost use Rattle.std.proofs.Math.Option.{Option};
ghost use Rattle.tables.specs.Rows.{table_bytes, remove_at};
ghost use Rattle.tables.specs.Records.{address_row, address_bytes, bytes2};
ghost use Rattle.tables.specs.Operations.{row_out, row_added, row_newest};
ghost use Rattle.tables.specs.Index.{Indexed};
ghost use Rattle.paper.specs.KeyedLaws.{Distinct};
ghost use Rattle.paper.specs.Index.{index_where};
ghost use Rattle.paper.specs.Cache.{Numbers, AddressRow, BlockRow, Box, block_row, is_lost, taken, stored, step1, step3, step4, step};
ghost use Rattle.paper.specs.Cache.{dropped, row_of, without_address};
ghost use Rattle.paper.specs.Engine.{Fixed, labelled};
ghost use Rattle.paper.specs.Lent.{bit, join};
ghost use Rattle.paper.specs.Layout.{Addrs, Blocks, Parts, addresses_of, blocks_of};
ghost use Rattle.parts.specs.Rep.{Sized, Rep, LentBox, copied_rows, no_row, engine};
ghost use Rattle.parts.specs.Asked.{full};
ghost use Rattle.step.specs.Steps.{place_of, out1, block_bytes, Picked, picked_taken, out4, after, asks, OnceEach, Sure};

use parts::{BoxRecord, copy, rows};
use tables::{FlashSlot, SourceAddress, put, row, shift};

// What step 1 tells: how many rows are held then, the place of the fingerprint taken out, and the blocks copied to the disk.
#[derive(Clone, Copy)]
pub struct Out {
    pub held: usize,
    pub place: usize,
    pub primary: usize,
}

// Takes row `i` out. The place of its fingerprint's block row.
pub fn take_row(b: BoxRecord, i: usize, addrs: &mut [u8], blocks: &[u8]) -> usize
    requires { (i < b.held) × Sized b addrs.old blocks.now }
    ensures { (rows : List (AddressRow (Fixed 32))) (free : List ℕ) (used : List (BlockRow (Fixed 32)))
        → Addrs b.blocks b.rows b.held addrs.old rows → Blocks b.slots blocks.now free used
        → (result ≡ place_of (Option.some (get_or rows i no_row).fingerprint) free used) × (addrs.new ≡ addresses_of b.rows (remove_at rows i)) }
{
    let place = rows::place_of(blocks, b.slots, row::address_fingerprint(addrs, i));
    shift::remove_row(addrs, b.held, i);
    place
}

// Step 1.
pub(crate) fn step1(
    b: BoxRecord,
    a: SourceAddress,
    disk: &mut [u8],
    flash: &[u8],
    addrs: &mut [u8],
    blocks: &[u8],
    heads: &[u16],
) -> Out
    requires rows_nonzero { (0 < b.rows) × (0 < b.slots) × (b.slots ≤ 256) × Sized b addrs.old blocks.now }
    requires lent_box { LentBox b disk.old flash.now addrs.old blocks.now }
    requires indexed { Indexed b.slots blocks.now heads.now }
    ensures held_lt_rows { (result.held < b.rows) × (result.primary ≤ 1) }
    ensures addrs_after { (s : Box (Fixed 32) (Fixed b.size)) → Rep b disk.old flash.now addrs.old blocks.now s
        → Distinct eqb (λ x. x.address) s.rows
        → record { held = result.held; place = result.place; primary = result.primary; disk = disk.new; addrs = addrs.new }
        ≡ out1 b s (step1 (engine b) b.rows s a.0) }
{
    let i = rows::row_of(addrs, b.held, a);
    if i < b.held {
        let place = take_row(b, i, addrs, blocks);
        return Out {
            held: b.held - 1,
            place: place,
            primary: 0,
        };
    }
    if b.held < b.rows {
        return Out {
            held: b.held,
            place: b.slots,
            primary: 0,
        };
    }
    let primary = copy::flush_row(b, 0, disk, flash, addrs, blocks, heads);
    let place = take_row(b, 0, addrs, blocks);
    Out {
        held: b.held - 1,
        place: place,
        primary: primary,
    }
}

// Step 3, where the fingerprint taken out has its block row at `place`. Where no row is free then, none was moved.
pub(crate) fn step3(b: BoxRecord, place: usize, addrs: &[u8], blocks: &mut [u8], heads: &[u16])
    requires held_nonzero { (0 < b.held) × (b.slots ≤ 256) × Sized b addrs.now blocks.old }
    requires indexed { Indexed b.slots blocks.old heads.now }
    ensures blocks_after { (N : Numbers) (l : List (AddressRow (Fixed 32))) (free : List ℕ) (used : List (BlockRow (Fixed 32))) (gone : Option (Fixed 32))
        → Addrs b.blocks b.rows b.held addrs.now l → Blocks b.slots blocks.old free used
        → OnceEach used → place ≡ place_of gone free used → blocks.new
        ≡ block_bytes (step3 (labelled N) gone (take (b.held - 1) l) l (record { free = free; used = used })) }
    ensures blocks_unchanged { full blocks.new ≡ true → blocks.new ≡ blocks.old }
{
    let d = b.slots;
    if d <= place {
        return;
    }
    if rows::knows(addrs, b.held, row::block_fingerprint(blocks, place)) {
        return;
    }
    if rows::uncached(addrs, b.held - 1, blocks, d, heads) {
        shift::to_front(blocks, d, place);
    }
}

// Copies the block of the block row at `t`, in `slot`, to the disk for each dirty row that has its fingerprint, if it is used.
pub(crate) fn lose(
    b: BoxRecord,
    t: usize,
    slot: FlashSlot,
    disk: &mut [u8],
    flash: &[u8],
    addrs: &mut [u8],
    blocks: &[u8],
) -> usize
    requires t_lt_slots { (t < b.slots) × (slot.0 < b.slots) × Sized b addrs.old blocks.now }
    requires rep { (s : Box (Fixed 32) (Fixed b.size)) × Rep b disk.old flash.now addrs.old blocks.now s
        × OnceEach s.used × Picked s.free s.used t × (slot.0 ≡ (picked_taken s.free s.used t).slot) }
    ensures upper_bound { result ≤ b.held }
    ensures addrs_after { (s : Box (Fixed 32) (Fixed b.size)) → Rep b disk.old flash.now addrs.old blocks.now s
        → OnceEach s.used → Picked s.free s.used t → slot.0 ≡ (picked_taken s.free s.used t).slot
        → record { count = result; disk = disk.new; addrs = addrs.new }
        ≡ copied_rows b (is_lost (engine b) (picked_taken s.free s.used t).lost) s b.held }
{
    if !row::is_used(blocks, t) {
        return 0;
    }
    let g = row::block_fingerprint(blocks, t);
    copy::clean_rows(b, disk, flash, addrs, blocks, g, slot)
}

// Puts `block` into `slot`, and `g` into the block row at `t`, which becomes newest.
pub(crate) fn fill(
    b: BoxRecord,
    t: usize,
    slot: FlashSlot,
    flash: &mut [u8],
    blocks: &mut [u8],
    g: &[u8],
    block: &[u8],
)
    requires { (t < b.slots) × (slot.0 * b.size + b.size ≤ length flash.old) × (length g.now ≡ 32) × (length block.now ≡ b.size)
        × (length blocks.old ≡ table_bytes b.slots) }
    ensures { (free : List ℕ) (used : List (BlockRow (Fixed 32))) (fl : List (Fixed b.size)) (f : Fixed 32) (x : Fixed b.size)
        → Blocks b.slots blocks.old free used → Parts b.size b.slots flash.old fl → Picked free used t → slot.0 < b.slots
        → slot.0 ≡ (picked_taken free used t).slot
        → f.0 ≡ g.now → x.0 ≡ block.now
        → (flash.new ≡ join (set fl slot.0 x)) × (blocks.new
        ≡ blocks_of (picked_taken free used t).free ((picked_taken free used t).used ++ (block_row f slot.0 ∷ []))) }
{
    block::put_slot(block, flash, slot, b.size);
    put::put_block(blocks, b.slots, t, g);
}

// Stores `block` with the fingerprint `g` in the block row at `t`, after the block that was there is copied for its dirty rows. How many times it was copied.
pub fn store_at(
    b: BoxRecord,
    t: usize,
    disk: &mut [u8],
    flash: &mut [u8],
    addrs: &mut [u8],
    blocks: &mut [u8],
    g: &[u8],
    block: &[u8],
) -> usize
    requires t_lt_slots { (t < b.slots) × (length g.now ≡ 32) × (length block.now ≡ b.size) × Sized b addrs.old blocks.old }
    requires rep { (s : Box (Fixed 32) (Fixed b.size)) × Rep b disk.old flash.old addrs.old blocks.old s
        × OnceEach s.used × Picked s.free s.used t }
    ensures upper_bound { result ≤ b.held }
    ensures blocks_after { (s : Box (Fixed 32) (Fixed b.size)) (f : Fixed 32) (x : Fixed b.size)
        → Rep b disk.old flash.old addrs.old blocks.old s
        → OnceEach s.used → Picked s.free s.used t → f.0 ≡ g.now → x.0 ≡ block.now
        → record { flashed = 1; primary = result; disk = disk.new; flash = flash.new; addrs = addrs.new; blocks = blocks.new }
        ≡ out4 b (stored (engine b) s.rows s.used s.flash s.disk f x 0 (picked_taken s.free s.used t)) }
{
    let slot = row::slot_at(blocks, t);
    let count = lose(b, t, slot, disk, flash, addrs, blocks);
    fill(b, t, slot, flash, blocks, g, block);
    count
}

// Step 4 where `g` is not cached. How many blocks were copied to the disk.
pub(crate) fn store(
    b: BoxRecord,
    disk: &mut [u8],
    flash: &mut [u8],
    addrs: &mut [u8],
    blocks: &mut [u8],
    g: &[u8],
    block: &[u8],
    heads: &[u16],
) -> usize
    requires slots_nonzero { (0 < b.slots) × (length g.now ≡ 32) × (length block.now ≡ b.size) × (b.slots ≤ 256) × Sized b addrs.old blocks.old }
    requires rep { (s : Box (Fixed 32) (Fixed b.size)) × Rep b disk.old flash.old addrs.old blocks.old s
        × OnceEach s.used }
    requires indexed { full blocks.old ≡ true → Indexed b.slots blocks.old heads.now }
    ensures upper_bound { result ≤ b.held }
    ensures blocks_after { (s : Box (Fixed 32) (Fixed b.size)) (f : Fixed 32) (x : Fixed b.size)
        → Rep b disk.old flash.old addrs.old blocks.old s
        → OnceEach s.used → f.0 ≡ g.now → x.0 ≡ block.now
        → record { flashed = 1; primary = result; disk = disk.new; flash = flash.new; addrs = addrs.new; blocks = blocks.new }
        ≡ out4 b (stored (engine b) s.rows s.used s.flash s.disk f x 0 (taken (engine b) s.rows s.free s.used)) }
{
    let t = rows::victim(addrs, b.held, blocks, b.slots, heads);
    store_at(b, t, disk, flash, addrs, blocks, g, block)
}

// What step 4 tells: the blocks stored in the flash, and those copied to the disk.
#[derive(Clone, Copy)]
pub struct Wrote {
    pub flashed: usize,
    pub primary: usize,
}

// Step 4.
pub(crate) fn step4(
    b: BoxRecord,
    disk: &mut [u8],
    flash: &mut [u8],
    addrs: &mut [u8],
    blocks: &mut [u8],
    g: &[u8],
    block: &[u8],
    heads: &[u16],
) -> Wrote
    requires slots_nonzero { (0 < b.slots) × (length g.now ≡ 32) × (length block.now ≡ b.size) × (b.slots ≤ 256) × Sized b addrs.old blocks.old }
    requires rep { (s : Box (Fixed 32) (Fixed b.size)) × Rep b disk.old flash.old addrs.old blocks.old s
        × OnceEach s.used }
    requires indexed { full blocks.old ≡ true → Indexed b.slots blocks.old heads.now }
    ensures flashed_bound { (result.flashed ≤ 1) × (result.primary ≤ b.held) }
    ensures blocks_after { (s : Box (Fixed 32) (Fixed b.size)) (f : Fixed 32) (x : Fixed b.size)
        → Rep b disk.old flash.old addrs.old blocks.old s
        → OnceEach s.used → f.0 ≡ g.now → x.0 ≡ block.now
        → record {
          flashed = result.flashed;
          primary = result.primary;
          disk = disk.new;
          flash = flash.new;
          addrs = addrs.new;
          blocks = blocks.new;
        }
        ≡ out4 b (step4 (engine b) s.rows (record { free = s.free; used = s.used }) s.flash s.disk f x 0) }
{
    let j = rows::place_of(blocks, b.slots, g);
    if j < b.slots {
        shift::to_newest(blocks, b.slots, j);
        return Wrote {
            flashed: 0,
            primary: 0,
        };
    }
    let count = store(b, disk, flash, addrs, blocks, g, block, heads);
    Wrote {
        flashed: 1,
        primary: count,
    }
}

// What a step tells: how many rows are held, the blocks stored in the flash, and those copied to the disk.
#[derive(Clone, Copy)]
pub struct Done {
    pub held: usize,
    pub flashed: usize,
    pub primary: usize,
}

// The step of one request.
pub fn step(
    b: BoxRecord,
    a: SourceAddress,
    dirty: u8,
    seat: u16,
    disk: &mut [u8],
    flash: &mut [u8],
    addrs: &mut [u8],
    blocks: &mut [u8],
    g: &[u8],
    block: &[u8],
    heads: &[u16],
) -> Done
    requires rows_nonzero { (0 < b.rows) × (0 < b.slots) × (length g.now ≡ 32) × (length block.now ≡ b.size) × (a.0 < b.blocks) × (b.rows ≤ 1024)
        × Sized b addrs.old blocks.old }
    requires rep { (s : Box (Fixed 32) (Fixed b.size)) × (w : Bool) × Rep b disk.old flash.old addrs.old blocks.old s × Sure b s
        × (dirty ≡ bit w) }
    requires indexed { Indexed b.slots blocks.old heads.now }
    ensures flashed_bound { (result.flashed ≤ 1) × (result.primary ≤ 1 + b.rows) }
    ensures blocks_after { (s : Box (Fixed 32) (Fixed b.size)) (f : Fixed 32) (x : Fixed b.size) (w : Bool)
        → Rep b disk.old flash.old addrs.old blocks.old s → Sure b s → f.0 ≡ g.now → x.0
        ≡ block.now → dirty ≡ bit w
        → record {
          held = result.held;
          left = (record {
            flashed = result.flashed;
            primary = result.primary;
            disk = disk.new;
            flash = flash.new;
            addrs = addrs.new;
            blocks = blocks.new;
          });
        }
        ≡ after b (step (engine b) b.rows s (asks a.0 f x w (bytes2 seat))) }
{
    let o = step1(b, a, disk, flash, addrs, blocks, heads);
    put::push_address(addrs, o.held, a, g, dirty, seat);
    let n = o.held + 1;
    let c = parts::with_held(b, n);
    step3(c, o.place, addrs, blocks, heads);
    let w = step4(c, disk, flash, addrs, blocks, g, block, heads);
    Done {
        held: n,
        flashed: w.flashed,
        primary: o.primary + w.primary,
    }
}

// The step of a hit, in three moves: row `i`, of `a`, becomes newest, and so does the block row at `j`.
pub fn renew(
    b: BoxRecord,
    a: SourceAddress,
    i: usize,
    j: usize,
    dirty: u8,
    seat: u16,
    addrs: &mut [u8],
    blocks: &mut [u8],
    g: &[u8],
)
    requires { (i < b.held) × (j < b.slots) × (length g.now ≡ 32) × Sized b addrs.old blocks.old }
    ensures addrs_after { addrs.new ≡ row_added (b.held - 1) (address_bytes (address_row a.0 g.now dirty (bytes2 seat)))
        (row_out b.held i addrs.old) }
    ensures blocks_after { blocks.new ≡ row_newest b.slots j blocks.old }
{
    let n = b.held - 1;
    shift::remove_row(addrs, b.held, i);
    put::push_address(addrs, n, a, g, dirty, seat);
    shift::to_newest(blocks, b.slots, j);
}

// Frees the block row at `place` where no held row has its fingerprint.
pub(crate) fn free_unknown(b: BoxRecord, place: usize, addrs: &[u8], blocks: &mut [u8])
    requires { Sized b addrs.now blocks.old }
    ensures { (N : Numbers) (l : List (AddressRow (Fixed 32))) (free : List ℕ) (used : List (BlockRow (Fixed 32))) (r : AddressRow (Fixed 32))
        → Addrs b.blocks b.rows b.held addrs.now l → Blocks b.slots blocks.old free used
        → OnceEach used → place ≡ place_of (Option.some r.fingerprint) free used → blocks.new
        ≡ block_bytes (dropped (labelled N) l (record { free = free; used = used }) (Option.some r)) }
{
    let d = b.slots;
    if d <= place {
        return;
    }
    if rows::knows(addrs, b.held, row::block_fingerprint(blocks, place)) {
        return;
    }
    shift::to_front(blocks, d, place);
}

// Takes row `i` out, if there is one, and frees its fingerprint's block row where no other row has it. The rows then held.
pub fn drop_row(b: BoxRecord, i: usize, addrs: &mut [u8], blocks: &mut [u8]) -> usize
    requires sized { Sized b addrs.old blocks.old }
    requires by_index { (a : ℕ) × (l : List (AddressRow (Fixed 32))) × (free : List ℕ) × (used : List (BlockRow (Fixed 32)))
        × Addrs b.blocks b.rows b.held addrs.old l × Blocks b.slots blocks.old free used
        × Distinct eqb (λ x. x.address) l × OnceEach used × (i ≡ index_where (λ x. eqb a x.address) l) }
    ensures { (N : Numbers) (a : ℕ) (l : List (AddressRow (Fixed 32))) (free : List ℕ) (used : List (BlockRow (Fixed 32)))
        → Addrs b.blocks b.rows b.held addrs.old l → Blocks b.slots blocks.old free used
        → Distinct eqb (λ x. x.address) l → OnceEach used → i ≡ index_where (λ x. eqb a x.address) l
        → (result ≡ length (without_address a l)) × (addrs.new ≡ addresses_of b.rows (without_address a l))
        × (blocks.new ≡ block_bytes (dropped (labelled N) (without_address a l) (record { free = free; used = used }) (row_of a l))) }
{
    if b.held <= i {
        return b.held;
    }
    let place = take_row(b, i, addrs, blocks);
    let n = b.held - 1;
    let c = parts::with_held(b, n);
    free_unknown(c, place, addrs, blocks);
    n
}
