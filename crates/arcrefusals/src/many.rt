// The refusals of a folder read of a D-ARC box: 11, 12, 2, 10, 3, 6, 7, 8, 13, 9.
ghost use Rattle.std.specs.Prelude.{◌≡◌};
ghost use Rattle.refusal.specs.Numbers.{number_of};
ghost use Rattle.arc.specs.ArcFolder.{arc_folder_refusal};
ghost use Rattle.refusals.specs.Given.{counters_of};
ghost use Rattle.arcrefusals.specs.Given.{sizes_of, arc_lent};

use crate::{ArcRecord, arc_opening, base_of, state};
use checks::index;
use counters::Counters;
use refusal::Refusal;
use refusals::many;

// The refusal of a folder read: "with 10 an empty list or one above 64, checked after 2, and with 3 if any address is too large".
pub fn arc_many(
    a: ArcRecord,
    asked: &[u32],
    disk: &[u8],
    flash: &[u8],
    addresses: &[u8],
    blocks: &[u8],
    lists: &[u8],
    c: Counters,
    buffer: &[u8],
) -> Result<(), Refusal>
    ensures { number_of result ≡ arc_folder_refusal (sizes_of a) (arc_lent a disk.now flash.now addresses.now blocks.now
        lists.now (counters_of c)) asked.now buffer.now }
{
    arc_opening(a, disk, flash, addresses, blocks, lists)?;
    many::of_list(base_of(a), asked, buffer.len())?;
    let mut heads = [0u16; index::ENTRIES];
    state::arc_state(a, addresses, blocks, lists, c, &mut heads)
}
