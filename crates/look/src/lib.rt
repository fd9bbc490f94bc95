// Look: the answer, and the block itself as a part of the flash or of the disk. Nothing is moved or counted.
#![tactic(auto)]

ghost use Rattle.std.specs.Prelude.{◌≡◌, Ok};
ghost use Rattle.paper.specs.Cache.{Counters};
ghost use Rattle.paper.specs.Lent.{Ask, calling, refusal, call};
ghost use Rattle.parts.specs.Rep.{numbers_of};
ghost use Rattle.refusals.specs.Given.{lent};
ghost use Rattle.policy.specs.Contract.{answer_of};
ghost use Rattle.look.specs.Look.{numbered, where_is, part_at};

use parts::{BoxRecord, rows};
use policy::{Answered, Word};
use refusal::Refusal;
use tables::{FlashSlot, SourceAddress};

// Where the block of an address is.
#[derive(Clone, Copy)]
pub enum Place {
    Flash(FlashSlot),
    Disk,
}

// Where the block of `a` is, of lent memory that a look is not refused on.
pub fn found(
    b: BoxRecord,
    a: SourceAddress,
    disk: &[u8],
    flash: &[u8],
    addresses: &[u8],
    blocks: &[u8],
) -> Place
    requires { (k : Counters) → refusal (numbers_of b) (lent b disk.now flash.now addresses.now blocks.now k) (calling (Ask.look a.0)) ≡ 0 }
    ensures { (k : Counters) → Ok result ≡ where_is (numbers_of b) (lent b disk.now flash.now addresses.now
        blocks.now k) a.0 }
{
    let i = rows::row_of(addresses, b.held, a);
    let j = rows::place_of_row(b, i, addresses, blocks);
    if j < b.slots {
        return Place::Flash(tables::row::slot_at(blocks, j));
    }
    Place::Disk
}

// Where the block of `a` is, or the refusal.
pub fn place_of(
    b: BoxRecord,
    a: SourceAddress,
    disk: &[u8],
    flash: &[u8],
    addresses: &[u8],
    blocks: &[u8],
) -> Result<Place, Refusal>
    ensures { (k : Counters) → numbered result ≡ where_is (numbers_of b) (lent b disk.now flash.now addresses.now
        blocks.now k) a.0 }
{
    refusals::of_look(b, a, disk, flash, addresses, blocks)?;
    Ok(found(b, a, disk, flash, addresses, blocks))
}

// Look's answer: the refusal, or whether the block comes from the cache or from the disk.
pub fn look(
    b: BoxRecord,
    a: SourceAddress,
    disk: &[u8],
    flash: &[u8],
    addresses: &[u8],
    blocks: &[u8],
) -> Result<Answered, Refusal>
    ensures { (k : Counters) → answer_of result ≡ (call (numbers_of b)
        (lent b disk.now flash.now addresses.now blocks.now k) (Ask.look a.0)).answer }
{
    let word = match place_of(b, a, disk, flash, addresses, blocks)? {
        Place::Flash(_) => Word::Cache,
        Place::Disk => Word::Disk,
    };
    Ok(Answered {
        word,
        flashed: 0,
        primary: 0,
    })
}

// Look's part: the block of `a`, empty where the look is refused. It is the part of the flash at its slot, or of the disk at its address.
pub fn look_part<'a>(
    b: BoxRecord,
    a: SourceAddress,
    flash: &'a [u8],
    disk: &'a [u8],
    addresses: &[u8],
    blocks: &[u8],
) -> &'a [u8]
    ensures result_value { (k : Counters) → result.now ≡ (call (numbers_of b) (lent b disk.now flash.now addresses.now
        blocks.now k) (Ask.look a.0)).part }
    ensures result_value_2 { (k : Counters) → result.now ≡ part_at b.size a.0 flash.now disk.now
        (where_is (numbers_of b) (lent b disk.now flash.now addresses.now blocks.now k) a.0) }
{
    match place_of(b, a, disk, flash, addresses, blocks) {
        Err(_) => &disk[0..0],
        Ok(Place::Flash(s)) => block::in_slot(flash, s, b.size),
        Ok(Place::Disk) => block::at_address(disk, a, b.size),
    }
}
