// The calls that are not refused, on the bytes of a paper box.
#![tactic(auto)]

ghost use Rattle.std.specs.Prelude.{◌≡◌, List, ℕ, ◌+◌, ◌*◌, ◌<◌, ◌≤◌, length, get_or};
ghost use Rattle.std.proofs.Math.Option.{Option};
ghost use Rattle.hash.specs.LastChunk.{Size};
ghost use Rattle.tables.specs.Records.{Seat, bytes2};
ghost use Rattle.paper.specs.Cache.{Numbers, AddressRow, Box, Call, serve, seat_in, row_of, row_with_block, read_as, dirtied};
ghost use Rattle.paper.specs.Engine.{Fixed, labelled};
ghost use Rattle.paper.specs.Layout.{Addrs};
ghost use Rattle.paper.specs.Lent.{bit};
ghost use Rattle.tables.specs.Rows.{table_bytes};
ghost use Rattle.parts.specs.Rep.{numbers_of, Sized, Rep, LentBox, engine};
ghost use Rattle.tables.specs.Index.{Indexed};
ghost use Rattle.step.specs.Steps.{Sure};
ghost use Rattle.serve.specs.declared.Write.TheVariants.{Through, Back, Invalidate};
ghost use Rattle.serve.specs.Calls.{Access, LentSound, left, leaves, Wrote, HitAt};

use hash::fingerprint;
use parts::{BoxRecord, copy, rows};
use step::steps;
use tables::{SourceAddress, find, row};

// What a served call tells: whether its word is the first of its two, the rows held, and its flash and primary writes.
#[derive(Clone, Copy)]
pub struct Served {
    pub yes: bool,
    pub held: usize,
    pub flashed: usize,
    pub primary: usize,
}

// The kinds of write.
#[derive(Clone, Copy)]
pub enum Write {
    Through,
    Back,
    Invalidate,
}

// The fingerprint of a block of the box, under its label.
pub fn fingerprint_of(b: BoxRecord, block: &[u8]) -> [u8; 32]
    requires { Size (length block.now) }
    ensures { (x : Fixed b.size) → x.0 ≡ block.now → ((engine b).hash x).0 ≡ result }
{
    let label = b.label;
    fingerprint::labelled_sha256(label, block)
}

// The dirty value of a write back of the fingerprint `g` to `a`: 0 where `a` is held, clean, with `g`.
pub fn dirty_value(b: BoxRecord, a: SourceAddress, addrs: &[u8], g: &[u8]) -> u8
    requires { (b.held ≤ b.rows) × (length addrs.now ≡ table_bytes b.rows) × (length g.now ≡ 32) }
    ensures { (N : Numbers) (l : List (AddressRow (Fixed 32))) (f : Fixed 32)
        → Addrs b.blocks b.rows b.held addrs.now l → f.0 ≡ g.now → result ≡ bit (dirtied (labelled N) f (row_of a.0 l)) }
{
    let i = rows::row_of(addrs, b.held, a);
    if b.held <= i {
        return 1;
    }
    if row::is_dirty(addrs, i) {
        return 1;
    }
    if find::fingerprint_is(addrs, i, g) {
        return 0;
    }
    1
}

// The seat that a read of `a` leaves where it misses: that of the row of `a`, 0 where `a` is not held.
pub fn seat_of(b: BoxRecord, a: SourceAddress, addrs: &[u8]) -> u16
    requires { (b.held ≤ b.rows) × (length addrs.now ≡ table_bytes b.rows) }
    ensures { (l : List (AddressRow (Fixed 32))) → Addrs b.blocks b.rows b.held addrs.now l
        → bytes2 result ≡ seat_in (row_of a.0 l) }
{
    let i = rows::row_of(addrs, b.held, a);
    if i < b.held {
        return row::seat_at(addrs, i);
    }
    0
}

// Write back: the step, and then the oldest dirty row goes to the disk if more are dirty than the limit.
fn serve_back(
    b: BoxRecord,
    a: SourceAddress,
    seat: u16,
    disk: &mut [u8],
    flash: &mut [u8],
    addrs: &mut [u8],
    blocks: &mut [u8],
    block: &[u8],
    heads: &[u16],
) -> Served
    requires disk_len { (length disk.old ≡ b.blocks * b.size) × Access b a.0 block.now addrs.old blocks.old }
    requires lent_sound { LentSound b disk.old flash.old addrs.old blocks.old }
    requires indexed { Indexed b.slots blocks.old heads.now }
    ensures flashed_bound { (result.flashed ≤ 1) × (result.primary ≤ 2 + b.rows) }
    ensures wrote { Wrote Back b a.0 (bytes2 seat) disk.old flash.old addrs.old blocks.old block.now
        (left result disk.new flash.new addrs.new blocks.new block.now) }
{
    let g = fingerprint_of(b, block);
    let j = rows::place_of(blocks, b.slots, &g);
    let w = dirty_value(b, a, addrs, &g);
    let d = steps::step(b, a, w, seat, disk, flash, addrs, blocks, &g, block, heads);
    let c = parts::with_held(b, d.held);
    let more = copy::limit_rows(c, disk, flash, addrs, blocks);
    Served {
        yes: j < b.slots,
        held: d.held,
        flashed: d.flashed,
        primary: d.primary + more,
    }
}

// Flush of at most `k` dirty rows.
pub fn serve_flush(
    b: BoxRecord,
    k: usize,
    disk: &mut [u8],
    flash: &[u8],
    addrs: &mut [u8],
    blocks: &[u8],
    heads: &[u16],
) -> Served
    requires slots_nonzero { (0 < b.slots) × (b.slots ≤ 256) × Sized b addrs.old blocks.now }
    requires lent_box { LentBox b disk.old flash.now addrs.old blocks.now }
    requires indexed { Indexed b.slots blocks.now heads.now }
    ensures flashed_bound { (result.flashed ≤ 1) × (result.primary ≤ 2 + b.rows) }
    ensures lent_after { (s : Box (Fixed 32) (Fixed b.size)) (lent : List ℕ)
        → Rep b disk.old flash.now addrs.old blocks.now s
        → left result disk.new flash.now addrs.new blocks.now lent
        ≡ leaves b lent (serve (engine b) (numbers_of b) s (Call.flush k)) }
{
    let count = copy::flush_rows(b, k, disk, flash, addrs, blocks, heads);
    Served {
        yes: true,
        held: b.held,
        flashed: 0,
        primary: count,
    }
}

// Write through.
fn serve_through(
    b: BoxRecord,
    a: SourceAddress,
    seat: u16,
    disk: &mut [u8],
    flash: &mut [u8],
    addrs: &mut [u8],
    blocks: &mut [u8],
    block: &[u8],
    heads: &[u16],
) -> Served
    requires disk_len { (length disk.old ≡ b.blocks * b.size) × Access b a.0 block.now addrs.old blocks.old }
    requires lent_sound { LentSound b disk.old flash.old addrs.old blocks.old }
    requires indexed { Indexed b.slots blocks.old heads.now }
    ensures flashed_bound { (result.flashed ≤ 1) × (result.primary ≤ 2 + b.rows) }
    ensures wrote { Wrote Through b a.0 (bytes2 seat) disk.old flash.old addrs.old blocks.old
        block.now (left result disk.new flash.new addrs.new blocks.new block.now) }
{
    let g = fingerprint_of(b, block);
    let j = rows::place_of(blocks, b.slots, &g);
    block::put_address(block, disk, a, b.size);
    let d = steps::step(b, a, 0, seat, disk, flash, addrs, blocks, &g, block, heads);
    Served {
        yes: j < b.slots,
        held: d.held,
        flashed: d.flashed,
        primary: 1 + d.primary,
    }
}

// Write invalidate.
fn serve_invalidate(
    b: BoxRecord,
    a: SourceAddress,
    disk: &mut [u8],
    addrs: &mut [u8],
    blocks: &mut [u8],
    block: &[u8],
) -> Served
    requires disk_len { (length disk.old ≡ b.blocks * b.size) × Access b a.0 block.now addrs.old blocks.old }
    requires by_index { (flash : List ℕ) × LentSound b disk.old flash addrs.old blocks.old }
    ensures flashed_bound { (result.flashed ≤ 1) × (result.primary ≤ 2 + b.rows) }
    ensures by_index_2 { (flash : List ℕ) (z : Seat) → Wrote Invalidate b a.0 z disk.old flash addrs.old blocks.old
        block.now (left result disk.new flash addrs.new blocks.new block.now) }
{
    let g = fingerprint_of(b, block);
    let j = rows::place_of(blocks, b.slots, &g);
    let i = rows::row_of(addrs, b.held, a);
    block::put_address(block, disk, a, b.size);
    let held = steps::drop_row(b, i, addrs, blocks);
    Served {
        yes: j < b.slots,
        held: held,
        flashed: 0,
        primary: 1,
    }
}

// A write of any kind.
pub fn serve_write(
    kind: Write,
    b: BoxRecord,
    a: SourceAddress,
    seat: u16,
    disk: &mut [u8],
    flash: &mut [u8],
    addrs: &mut [u8],
    blocks: &mut [u8],
    block: &[u8],
    heads: &[u16],
) -> Served
    requires disk_len { (length disk.old ≡ b.blocks * b.size) × Access b a.0 block.now addrs.old blocks.old }
    requires lent_sound { LentSound b disk.old flash.old addrs.old blocks.old }
    requires indexed { Indexed b.slots blocks.old heads.now }
    ensures flashed_bound { (result.flashed ≤ 1) × (result.primary ≤ 2 + b.rows) }
    ensures wrote { Wrote kind b a.0 (bytes2 seat) disk.old flash.old addrs.old blocks.old block.now
        (left result disk.new flash.new addrs.new blocks.new block.now) }
{
    match kind {
        Write::Through => serve_through(b, a, seat, disk, flash, addrs, blocks, block, heads),
        Write::Back => serve_back(b, a, seat, disk, flash, addrs, blocks, block, heads),
        Write::Invalidate => serve_invalidate(b, a, disk, addrs, blocks, block),
    }
}

// Read, where `a` is held in row `i` and its block is in the block row at `j`: no index is asked.
pub fn read_hit(
    b: BoxRecord,
    a: SourceAddress,
    i: usize,
    j: usize,
    flash: &[u8],
    addrs: &mut [u8],
    blocks: &mut [u8],
    block: &mut [u8],
) -> Served
    requires i_lt_held { (i < b.held) × (j < b.slots) × Access b a.0 block.old addrs.old blocks.old }
    requires by_index { (disk : List ℕ) × (s : Box (Fixed 32) (Fixed b.size)) × Rep b disk flash.now addrs.old blocks.old s × HitAt b s a.0 i j }
    ensures flashed_bound { (result.flashed ≤ 1) × (result.primary ≤ 2 + b.rows) }
    ensures by_index_2 { (disk : List ℕ) (s : Box (Fixed 32) (Fixed b.size)) (x : Fixed b.size) (lent : List ℕ)
        → Rep b disk flash.now addrs.old blocks.old s → Sure b s → HitAt b s a.0 i j
        → left result disk flash.now addrs.new blocks.new block.new
        ≡ leaves b lent (read_as (engine b) b.rows s a.0 x (row_with_block (engine b) s a.0)) }
{
    let g = rows::fp_at(addrs, i);
    let dirty = rows::dirty_at(addrs, i);
    let seat = row::seat_at(addrs, i);
    let slot = row::slot_at(blocks, j);
    block.copy_from_slice(block::in_slot(flash, slot, b.size));
    steps::renew(b, a, i, j, dirty, seat, addrs, blocks, &g);
    Served {
        yes: true,
        held: b.held,
        flashed: 0,
        primary: 0,
    }
}

// Read, where `a` is not held with its block: the lent block is the one that it takes.
pub fn read_taken(
    b: BoxRecord,
    a: SourceAddress,
    disk: &mut [u8],
    flash: &mut [u8],
    addrs: &mut [u8],
    blocks: &mut [u8],
    block: &[u8],
    heads: &[u16],
) -> Served
    requires access { Access b a.0 block.now addrs.old blocks.old }
    requires lent_sound { LentSound b disk.old flash.old addrs.old blocks.old }
    requires indexed { Indexed b.slots blocks.old heads.now }
    ensures flashed_bound { (result.flashed ≤ 1) × (result.primary ≤ 2 + b.rows) }
    ensures block_after { (s : Box (Fixed 32) (Fixed b.size)) (x : Fixed b.size) (lent : List ℕ)
        → Rep b disk.old flash.old addrs.old blocks.old s → Sure b s → x.0 ≡ block.now
        → left result disk.new flash.new addrs.new blocks.new block.now
        ≡ leaves b lent (read_as (engine b) b.rows s a.0 x Option.none) }
{
    let g = fingerprint_of(b, block);
    let seat = seat_of(b, a, addrs);
    let d = steps::step(b, a, 0, seat, disk, flash, addrs, blocks, &g, block, heads);
    Served {
        yes: false,
        held: d.held,
        flashed: d.flashed,
        primary: d.primary,
    }
}

// Read, where `a` is not held with its block: it takes the disk's.
pub fn read_miss(
    b: BoxRecord,
    a: SourceAddress,
    disk: &mut [u8],
    flash: &mut [u8],
    addrs: &mut [u8],
    blocks: &mut [u8],
    block: &mut [u8],
    heads: &[u16],
) -> Served
    requires access { Access b a.0 block.old addrs.old blocks.old }
    requires lent_sound { LentSound b disk.old flash.old addrs.old blocks.old }
    requires indexed { Indexed b.slots blocks.old heads.now }
    ensures flashed_bound { (result.flashed ≤ 1) × (result.primary ≤ 2 + b.rows) }
    ensures block_after { (s : Box (Fixed 32) (Fixed b.size)) (lent : List ℕ)
        → Rep b disk.old flash.old addrs.old blocks.old s → Sure b s
        → left result disk.new flash.new addrs.new blocks.new block.new
        ≡ leaves b lent (read_as (engine b) b.rows s a.0 (get_or s.disk a.0 (engine b).blank) Option.none) }
{
    block.copy_from_slice(block::at_address(disk, a, b.size));
    read_taken(b, a, disk, flash, addrs, blocks, block, heads)
}

// Read.
pub fn serve_read(
    b: BoxRecord,
    a: SourceAddress,
    disk: &mut [u8],
    flash: &mut [u8],
    addrs: &mut [u8],
    blocks: &mut [u8],
    block: &mut [u8],
    heads: &[u16],
) -> Served
    requires access { Access b a.0 block.old addrs.old blocks.old }
    requires lent_sound { LentSound b disk.old flash.old addrs.old blocks.old }
    requires indexed { Indexed b.slots blocks.old heads.now }
    ensures flashed_bound { (result.flashed ≤ 1) × (result.primary ≤ 2 + b.rows) }
    ensures block_after { (s : Box (Fixed 32) (Fixed b.size)) (lent : List ℕ)
        → Rep b disk.old flash.old addrs.old blocks.old s → Sure b s
        → left result disk.new flash.new addrs.new blocks.new block.new
        ≡ leaves b lent (serve (engine b) (numbers_of b) s (Call.read a.0)) }
{
    let i = rows::row_of(addrs, b.held, a);
    let j = rows::place_of_row(b, i, addrs, blocks);
    if j < b.slots {
        return read_hit(b, a, i, j, flash, addrs, blocks, block);
    }
    read_miss(b, a, disk, flash, addrs, blocks, block, heads)
}
