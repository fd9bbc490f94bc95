// The refusals of the calls of a D-ARC box.
ghost use Rattle.std.specs.Prelude.{◌≡◌, ℕ, leb, OnOk};
ghost use Rattle.refusal.specs.Numbers.{number_of};
ghost use Rattle.tables.specs.Index.{Blank, Indexed};
ghost use Rattle.paper.specs.Cache.{Counters};
ghost use Rattle.paper.specs.Lent.{Ask, calling};
ghost use Rattle.arc.specs.ArcLent.{arc_refusal};
ghost use Rattle.refusals.specs.Given.{counters_of};
ghost use Rattle.arcrefusals.specs.Given.{sizes_of, arc_lent};

use crate::{ArcRecord, arc_opening, state};
use checks::index;
use refusal::Refusal;
use tables::SourceAddress;

// Refusal 3: an address outside the disk.
pub(crate) fn address_outside(a: ArcRecord, asked: SourceAddress) -> bool
    ensures { result ≡ leb a.blocks asked.0 }
{
    let n = asked.0;
    a.blocks <= n as usize
}

// The refusal of a flush, of however many rows. Where there is none, `heads` is the index of the block rows.
pub fn arc_flush(
    a: ArcRecord,
    disk: &[u8],
    flash: &[u8],
    addresses: &[u8],
    blocks: &[u8],
    lists: &[u8],
    c: counters::Counters,
    heads: &mut [u16],
) -> Result<(), Refusal>
    requires { Blank heads.old }
    ensures by_index { (k : ℕ) → number_of result ≡ arc_refusal (sizes_of a) (arc_lent a disk.now flash.now addresses.now blocks.now
        lists.now (counters_of c)) (calling (Ask.flush k)) }
    ensures indexed { OnOk result (Indexed a.sizes.cached blocks.now heads.new) }
{
    arc_opening(a, disk, flash, addresses, blocks, lists)?;
    state::arc_state(a, addresses, blocks, lists, c, heads)
}

// The refusal of a look.
pub fn arc_look(
    a: ArcRecord,
    asked: SourceAddress,
    disk: &[u8],
    flash: &[u8],
    addresses: &[u8],
    blocks: &[u8],
    lists: &[u8],
) -> Result<(), Refusal>
    ensures { (k : Counters) → number_of result ≡ arc_refusal (sizes_of a) (arc_lent a disk.now flash.now addresses.now
        blocks.now lists.now k) (calling (Ask.look asked.0)) }
{
    arc_opening(a, disk, flash, addresses, blocks, lists)?;
    if address_outside(a, asked) {
        return Err(Refusal::NoAddress);
    }
    let mut heads = [0u16; index::ENTRIES];
    state::arc_tables(a, addresses, blocks, lists, &mut heads)
}

// The refusal of a read or a write: a write is refused as a read is. Where there is none, `heads` is the index of the block rows.
pub fn arc_access(
    a: ArcRecord,
    asked: SourceAddress,
    disk: &[u8],
    flash: &[u8],
    addresses: &[u8],
    blocks: &[u8],
    lists: &[u8],
    c: counters::Counters,
    block: &[u8],
    heads: &mut [u16],
) -> Result<(), Refusal>
    requires { Blank heads.old }
    ensures value { number_of result ≡ arc_refusal (sizes_of a) (arc_lent a disk.now flash.now addresses.now blocks.now
        lists.now (counters_of c)) (calling (Ask.read asked.0 block.now)) }
    ensures indexed { OnOk result (Indexed a.sizes.cached blocks.now heads.new) }
{
    arc_opening(a, disk, flash, addresses, blocks, lists)?;
    if block.len() != a.size {
        return Err(Refusal::WrongLength);
    }
    if address_outside(a, asked) {
        return Err(Refusal::NoAddress);
    }
    state::arc_state(a, addresses, blocks, lists, c, heads)
}
