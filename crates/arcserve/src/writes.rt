// The writes of the three kinds.
ghost use Rattle.std.specs.Prelude.{List, ℕ, ◌+◌};
ghost use Rattle.tables.specs.Records.{Seat, bytes2};
ghost use Rattle.tables.specs.Index.{Indexed};
ghost use Rattle.serve.specs.declared.Write.TheVariants.{Through, Back, Invalidate};
ghost use Rattle.arcserve.specs.ArcCalls.{ArcAccess, LentArc, ArcWrote, Few};

use crate::ArcServed;
use arclists::{ListSizes, leave};
use arcstep::{Running, request};
use parts::{BoxRecord, copy, rows};
use serve::Write;
use step::steps;
use tables::SourceAddress;

// Write through: the block goes to the disk, and the step runs, clean.
pub(crate) fn serve_through(
    b: BoxRecord,
    s: ListSizes,
    a: SourceAddress,
    seat: u16,
    disk: &mut [u8],
    flash: &mut [u8],
    addrs: &mut [u8],
    blocks: &mut [u8],
    lists: &mut [u8],
    block: &[u8],
    heads: &[u16],
) -> ArcServed
    requires arc_access { ArcAccess b s a.0 block.now addrs.old blocks.old lists.old }
    requires lent_arc { LentArc b s disk.old flash.old addrs.old blocks.old lists.old }
    requires indexed { Indexed b.slots blocks.old heads.now }
    ensures few { Few b result }
    ensures arc_wrote { ArcWrote Through b s a.0 (bytes2 seat) disk.old flash.old addrs.old blocks.old
        lists.old block.now result disk.new flash.new addrs.new blocks.new lists.new }
{
    let g = serve::fingerprint_of(b, block);
    let j = rows::place_of(blocks, b.slots, &g);
    block::put_address(block, disk, a, b.size);
    let d = request::step(
        b, s, a, 0, seat, disk, flash, addrs, blocks, lists, &g, block, heads,
    );
    let running = Running {
        primary: 1 + d.primary,
        ..d
    };
    ArcServed {
        yes: j < b.slots,
        running,
    }
}

// Write back: the step, and then the oldest dirty row goes to the disk if more are dirty than the limit.
pub(crate) fn serve_back(
    b: BoxRecord,
    s: ListSizes,
    a: SourceAddress,
    seat: u16,
    disk: &mut [u8],
    flash: &mut [u8],
    addrs: &mut [u8],
    blocks: &mut [u8],
    lists: &mut [u8],
    block: &[u8],
    heads: &[u16],
) -> ArcServed
    requires arc_access { ArcAccess b s a.0 block.now addrs.old blocks.old lists.old }
    requires lent_arc { LentArc b s disk.old flash.old addrs.old blocks.old lists.old }
    requires indexed { Indexed b.slots blocks.old heads.now }
    ensures few { Few b result }
    ensures arc_wrote { ArcWrote Back b s a.0 (bytes2 seat) disk.old flash.old addrs.old blocks.old
        lists.old block.now result disk.new flash.new addrs.new blocks.new lists.new }
{
    let g = serve::fingerprint_of(b, block);
    let j = rows::place_of(blocks, b.slots, &g);
    let w = serve::dirty_value(b, a, addrs, &g);
    let d = request::step(
        b, s, a, w, seat, disk, flash, addrs, blocks, lists, &g, block, heads,
    );
    let c = parts::with_held(b, d.held);
    let more = copy::limit_rows(c, disk, flash, addrs, blocks);
    let running = Running {
        primary: d.primary + more,
        ..d
    };
    ArcServed {
        yes: j < b.slots,
        running,
    }
}

// Write invalidate: the row leaves as in the base, and the address leaves its list; p stays.
pub(crate) fn serve_invalidate(
    b: BoxRecord,
    s: ListSizes,
    a: SourceAddress,
    disk: &mut [u8],
    addrs: &mut [u8],
    blocks: &mut [u8],
    lists: &mut [u8],
    block: &[u8],
) -> ArcServed
    requires arc_access { ArcAccess b s a.0 block.now addrs.old blocks.old lists.old }
    requires by_index { (flash : List ℕ) × LentArc b s disk.old flash addrs.old blocks.old lists.old }
    ensures few { Few b result }
    ensures by_index_2 { (flash : List ℕ) (z : Seat) → ArcWrote Invalidate b s a.0 z disk.old flash addrs.old blocks.old
        lists.old block.now result disk.new flash addrs.new blocks.new lists.new }
{
    let g = serve::fingerprint_of(b, block);
    let j = rows::place_of(blocks, b.slots, &g);
    let i = rows::row_of(addrs, b.held, a);
    block::put_address(block, disk, a, b.size);
    let held = steps::drop_row(b, i, addrs, blocks);
    let left = leave::leave(s, lists, a.0);
    let running = Running {
        held,
        sizes: left.sizes,
        flashed: 0,
        primary: 1,
    };
    ArcServed {
        yes: j < b.slots,
        running,
    }
}

// A write of any kind.
pub fn serve_write(
    kind: Write,
    b: BoxRecord,
    s: ListSizes,
    a: SourceAddress,
    seat: u16,
    disk: &mut [u8],
    flash: &mut [u8],
    addrs: &mut [u8],
    blocks: &mut [u8],
    lists: &mut [u8],
    block: &[u8],
    heads: &[u16],
) -> ArcServed
    requires arc_access { ArcAccess b s a.0 block.now addrs.old blocks.old lists.old }
    requires lent_arc { LentArc b s disk.old flash.old addrs.old blocks.old lists.old }
    requires indexed { Indexed b.slots blocks.old heads.now }
    ensures few { Few b result }
    ensures arc_wrote { ArcWrote kind b s a.0 (bytes2 seat) disk.old flash.old addrs.old blocks.old
        lists.old block.now result disk.new flash.new addrs.new blocks.new lists.new }
{
    match kind {
        Write::Through => serve_through(
            b, s, a, seat, disk, flash, addrs, blocks, lists, block, heads,
        ),
        Write::Back => serve_back(
            b, s, a, seat, disk, flash, addrs, blocks, lists, block, heads,
        ),
        Write::Invalidate => serve_invalidate(b, s, a, disk, addrs, blocks, lists, block),
    }
}
