// One read of a folder: a hit asks no index, a miss makes it anew.
ghost use Rattle.std.specs.Prelude.{◌≡◌, cond, List, ℕ, ◌+◌, ◌≤◌, get_or};
ghost use Rattle.std.proofs.Math.Option.{Option};
ghost use Rattle.tables.specs.Index.{Blank, Indexed};
ghost use Rattle.paper.specs.Cache.{Box, read_as, row_with_block};
ghost use Rattle.paper.specs.Engine.{Fixed};
ghost use Rattle.parts.specs.Rep.{Rep, engine};
ghost use Rattle.step.specs.Steps.{Sure};
ghost use Rattle.serve.specs.Calls.{Access, LentSound, left, leaves};

use checks::index;
use parts::{BoxRecord, rows};
use serve::Served;
use tables::SourceAddress;

// The index of the block rows of a sound box; `heads` is 0 everywhere at first.
pub(crate) fn index_rows(b: BoxRecord, blocks: &[u8], heads: &mut [u16])
    requires blank { Blank heads.old }
    requires by_index { (disk : List ℕ) × (flash : List ℕ) × (addrs : List ℕ) × LentSound b disk flash addrs blocks.now }
    ensures { Indexed b.slots blocks.now heads.new }
{
    index::build(blocks, b.slots, heads);
}

// A miss: the first read of an address takes the disk's block, a repeat the lent one.
pub(crate) fn read_missed(
    b: BoxRecord,
    a: SourceAddress,
    first: bool,
    disk: &mut [u8],
    flash: &mut [u8],
    addrs: &mut [u8],
    blocks: &mut [u8],
    block: &mut [u8],
) -> Served
    requires access { Access b a.0 block.old addrs.old blocks.old }
    requires lent_sound { LentSound b disk.old flash.old addrs.old blocks.old }
    ensures flashed_bound { (result.flashed ≤ 1) × (result.primary ≤ 2 + b.rows) }
    ensures block_after { (s : Box (Fixed 32) (Fixed b.size)) (x : Fixed b.size) (lent : List ℕ)
        → Rep b disk.old flash.old addrs.old blocks.old s → Sure b s → x.0 ≡ block.old
        → left result disk.new flash.new addrs.new blocks.new block.new
        ≡ leaves b lent (read_as (engine b) b.rows s a.0 (cond first (get_or s.disk a.0 (engine b).blank) x) Option.none) }
{
    let mut heads = [0u16; index::ENTRIES];
    index_rows(b, blocks, &mut heads);
    if first {
        return serve::read_miss(b, a, disk, flash, addrs, blocks, block, &heads);
    }
    serve::read_taken(b, a, disk, flash, addrs, blocks, block, &heads)
}

// One read: the first of its address, or a repeat, to which its first read's block is lent.
pub(crate) fn read_one(
    b: BoxRecord,
    a: SourceAddress,
    first: bool,
    disk: &mut [u8],
    flash: &mut [u8],
    addrs: &mut [u8],
    blocks: &mut [u8],
    block: &mut [u8],
) -> Served
    requires access { Access b a.0 block.old addrs.old blocks.old }
    requires lent_sound { LentSound b disk.old flash.old addrs.old blocks.old }
    ensures flashed_bound { (result.flashed ≤ 1) × (result.primary ≤ 2 + b.rows) }
    ensures block_after { (s : Box (Fixed 32) (Fixed b.size)) (x : Fixed b.size) (lent : List ℕ)
        → Rep b disk.old flash.old addrs.old blocks.old s → Sure b s → x.0 ≡ block.old
        → left result disk.new flash.new addrs.new blocks.new block.new
        ≡ leaves b lent (read_as (engine b) b.rows s a.0 (cond first (get_or s.disk a.0 (engine b).blank) x)
        (row_with_block (engine b) s a.0)) }
{
    let i = rows::row_of(addrs, b.held, a);
    let j = rows::place_of_row(b, i, addrs, blocks);
    if j < b.slots {
        return serve::read_hit(b, a, i, j, flash, addrs, blocks, block);
    }
    read_missed(b, a, first, disk, flash, addrs, blocks, block)
}
