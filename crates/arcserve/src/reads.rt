// Read: the block of the cache or of the disk, and the step.
ghost use Rattle.std.specs.Prelude.{◌≡◌, List, ℕ, ◌<◌, length, get_or};
ghost use Rattle.std.proofs.Math.Option.{Option};
ghost use Rattle.tables.specs.Rows.{table_bytes};
ghost use Rattle.tables.specs.Index.{Indexed};
ghost use Rattle.paper.specs.Cache.{Box, Call, row_with_block, block_of};
ghost use Rattle.paper.specs.Engine.{Fixed};
ghost use Rattle.arc.specs.Policy.{read_by, serve_by};
ghost use Rattle.arc.specs.Arc.{Lists, arc};
ghost use Rattle.arc.specs.ArcStep.{ArcSound};
ghost use Rattle.arclists.specs.Holding.{Holds};
ghost use Rattle.parts.specs.Rep.{Rep, engine, no_row};
ghost use Rattle.arcstep.specs.Runs.{sizes_for};
ghost use Rattle.serve.specs.Calls.{HitAt};
ghost use Rattle.arcserve.specs.ArcCalls.{ArcAccess, LentArc, LentHit, Serves, Few};

use crate::ArcServed;
use arclists::ListSizes;
use arcstep::request;
use parts::{BoxRecord, rows};
use tables::{SourceAddress, row};

// Copies the block of the block row at `j` from the flash.
pub(crate) fn hit_block(b: BoxRecord, j: usize, flash: &[u8], blocks: &[u8], block: &mut [u8])
    requires j_lt_slots { (j < b.slots) × (length block.old ≡ b.size) × (length blocks.now ≡ table_bytes b.slots) }
    requires by_index { (disk addrs : List ℕ) × (s : Box (Fixed 32) (Fixed b.size)) × (a : ℕ) × (i : ℕ)
        × Rep b disk flash.now addrs blocks.now s × HitAt b s a i j }
    ensures { (disk addrs : List ℕ) (s : Box (Fixed 32) (Fixed b.size)) (a i : ℕ)
        → Rep b disk flash.now addrs blocks.now s → HitAt b s a i j
        → block.new ≡ (block_of (engine b) (get_or s.rows i no_row).fingerprint s.used s.flash).0 }
{
    let slot = row::slot_at(blocks, j);
    block.copy_from_slice(block::in_slot(flash, slot, b.size));
}

// Read, where `a` is held in row `i` and its block is in the block row at `j`.
pub fn read_hit(
    b: BoxRecord,
    s: ListSizes,
    a: SourceAddress,
    i: usize,
    j: usize,
    disk: &mut [u8],
    flash: &mut [u8],
    addrs: &mut [u8],
    blocks: &mut [u8],
    lists: &mut [u8],
    block: &mut [u8],
    heads: &[u16],
) -> ArcServed
    requires i_lt_held { (i < b.held) × (j < b.slots) × ArcAccess b s a.0 block.old addrs.old blocks.old lists.old }
    requires lent_hit { LentHit b s a.0 i j disk.old flash.old addrs.old blocks.old lists.old }
    requires indexed { Indexed b.slots blocks.old heads.now }
    ensures few { Few b result }
    ensures serves { (l : Lists) (x : Box (Fixed 32) (Fixed b.size)) (y : Fixed b.size) (lent : List ℕ)
        → Rep b disk.old flash.old addrs.old blocks.old x → Holds b.rows s lists.old l
        → ArcSound (engine b) (sizes_for b s) l x → HitAt b x a.0 i j
        → Serves b result disk.new flash.new addrs.new blocks.new lists.new block.new lent
        (read_by (engine b) (arc (engine b) (sizes_for b s)) l x a.0 y (row_with_block (engine b) x a.0)) }
{
    let g = rows::fp_at(addrs, i);
    let dirty = rows::dirty_at(addrs, i);
    let seat = row::seat_at(addrs, i);
    hit_block(b, j, flash, blocks, block);
    let running = request::step(
        b, s, a, dirty, seat, disk, flash, addrs, blocks, lists, &g, block, heads,
    );
    ArcServed { yes: true, running }
}

// Read, where `a` is not held with its block: the lent block is the one that it takes.
pub fn read_taken(
    b: BoxRecord,
    s: ListSizes,
    a: SourceAddress,
    disk: &mut [u8],
    flash: &mut [u8],
    addrs: &mut [u8],
    blocks: &mut [u8],
    lists: &mut [u8],
    block: &[u8],
    heads: &[u16],
) -> ArcServed
    requires arc_access { ArcAccess b s a.0 block.now addrs.old blocks.old lists.old }
    requires lent_arc { LentArc b s disk.old flash.old addrs.old blocks.old lists.old }
    requires indexed { Indexed b.slots blocks.old heads.now }
    ensures few { Few b result }
    ensures serves { (l : Lists) (x : Box (Fixed 32) (Fixed b.size)) (y : Fixed b.size) (lent : List ℕ)
        → Rep b disk.old flash.old addrs.old blocks.old x → Holds b.rows s lists.old l
        → ArcSound (engine b) (sizes_for b s) l x → y.0 ≡ block.now
        → Serves b result disk.new flash.new addrs.new blocks.new lists.new block.now lent
        (read_by (engine b) (arc (engine b) (sizes_for b s)) l x a.0 y Option.none) }
{
    let g = serve::fingerprint_of(b, block);
    let seat = serve::seat_of(b, a, addrs);
    let running = request::step(
        b, s, a, 0, seat, disk, flash, addrs, blocks, lists, &g, block, heads,
    );
    ArcServed {
        yes: false,
        running,
    }
}

// Read, where `a` is not held with its block: it takes the disk's.
pub fn read_miss(
    b: BoxRecord,
    s: ListSizes,
    a: SourceAddress,
    disk: &mut [u8],
    flash: &mut [u8],
    addrs: &mut [u8],
    blocks: &mut [u8],
    lists: &mut [u8],
    block: &mut [u8],
    heads: &[u16],
) -> ArcServed
    requires arc_access { ArcAccess b s a.0 block.old addrs.old blocks.old lists.old }
    requires lent_arc { LentArc b s disk.old flash.old addrs.old blocks.old lists.old }
    requires indexed { Indexed b.slots blocks.old heads.now }
    ensures few { Few b result }
    ensures serves { (l : Lists) (x : Box (Fixed 32) (Fixed b.size)) (lent : List ℕ)
        → Rep b disk.old flash.old addrs.old blocks.old x → Holds b.rows s lists.old l
        → ArcSound (engine b) (sizes_for b s) l x
        → Serves b result disk.new flash.new addrs.new blocks.new lists.new block.new lent
        (read_by (engine b) (arc (engine b) (sizes_for b s)) l x a.0 (get_or x.disk a.0 (engine b).blank) Option.none) }
{
    block.copy_from_slice(block::at_address(disk, a, b.size));
    read_taken(b, s, a, disk, flash, addrs, blocks, lists, block, heads)
}

// Read.
pub fn serve_read(
    b: BoxRecord,
    s: ListSizes,
    a: SourceAddress,
    disk: &mut [u8],
    flash: &mut [u8],
    addrs: &mut [u8],
    blocks: &mut [u8],
    lists: &mut [u8],
    block: &mut [u8],
    heads: &[u16],
) -> ArcServed
    requires arc_access { ArcAccess b s a.0 block.old addrs.old blocks.old lists.old }
    requires lent_arc { LentArc b s disk.old flash.old addrs.old blocks.old lists.old }
    requires indexed { Indexed b.slots blocks.old heads.now }
    ensures few { Few b result }
    ensures serves { (l : Lists) (x : Box (Fixed 32) (Fixed b.size)) (lent : List ℕ)
        → Rep b disk.old flash.old addrs.old blocks.old x → Holds b.rows s lists.old l
        → ArcSound (engine b) (sizes_for b s) l x
        → Serves b result disk.new flash.new addrs.new blocks.new lists.new block.new lent
        (serve_by (engine b) (arc (engine b) (sizes_for b s)) l x (Call.read a.0)) }
{
    let i = rows::row_of(addrs, b.held, a);
    let j = rows::place_of_row(b, i, addrs, blocks);
    if j < b.slots {
        return read_hit(
            b, s, a, i, j, disk, flash, addrs, blocks, lists, block, heads,
        );
    }
    read_miss(b, s, a, disk, flash, addrs, blocks, lists, block, heads)
}
