// Look: the answer, and the block itself as a part of the flash or of the disk. Nothing is moved or counted, and no list changes.
ghost use Rattle.std.specs.Prelude.{◌≡◌};
ghost use Rattle.paper.specs.Cache.{Counters};
ghost use Rattle.paper.specs.Lent.{Ask};
ghost use Rattle.arc.specs.ArcLent.{arc_call};
ghost use Rattle.policy.specs.Contract.{answer_of};
ghost use Rattle.look.specs.Look.{numbered};
ghost use Rattle.arcrefusals.specs.Given.{sizes_of, arc_lent};
ghost use Rattle.arccalls.specs.Contract.{arc_where};

use arcrefusals::{ArcRecord, base_of};
use look::Place;
use policy::{Answered, Word};
use refusal::Refusal;
use tables::SourceAddress;

// Where the block of `asked` is, or the refusal.
pub fn place_of(
    a: ArcRecord,
    asked: SourceAddress,
    disk: &[u8],
    flash: &[u8],
    addresses: &[u8],
    blocks: &[u8],
    lists: &[u8],
) -> Result<Place, Refusal>
    ensures { (k : Counters) → numbered result ≡ arc_where (sizes_of a) (arc_lent a disk.now flash.now addresses.now
        blocks.now lists.now k) asked.0 }
{
    arcrefusals::calls::arc_look(a, asked, disk, flash, addresses, blocks, lists)?;
    Ok(look::found(base_of(a), asked, disk, flash, addresses, blocks))
}

// Look's answer: the refusal, or whether the block comes from the cache or from the disk.
pub fn look(
    a: ArcRecord,
    asked: SourceAddress,
    disk: &[u8],
    flash: &[u8],
    addresses: &[u8],
    blocks: &[u8],
    lists: &[u8],
) -> Result<Answered, Refusal>
    ensures { (k : Counters) → answer_of result ≡ (arc_call (sizes_of a) (arc_lent a disk.now flash.now addresses.now
        blocks.now lists.now k) (Ask.look asked.0)).answer }
{
    let word = match place_of(a, asked, disk, flash, addresses, blocks, lists)? {
        Place::Flash(_) => Word::Cache,
        Place::Disk => Word::Disk,
    };
    Ok(Answered {
        word,
        flashed: 0,
        primary: 0,
    })
}

// Look's part: the block of `asked`, empty where the look is refused. It is the part of the flash at its slot, or of the disk at its address.
pub fn look_part<'a>(
    a: ArcRecord,
    asked: SourceAddress,
    flash: &'a [u8],
    disk: &'a [u8],
    addresses: &[u8],
    blocks: &[u8],
    lists: &[u8],
) -> &'a [u8]
    ensures { (k : Counters) → result.now ≡ (arc_call (sizes_of a) (arc_lent a disk.now flash.now addresses.now
        blocks.now lists.now k) (Ask.look asked.0)).part }
{
    match place_of(a, asked, disk, flash, addresses, blocks, lists) {
        Err(_) => &disk[0..0],
        Ok(Place::Flash(s)) => block::in_slot(flash, s, a.size),
        Ok(Place::Disk) => block::at_address(disk, asked, a.size),
    }
}
