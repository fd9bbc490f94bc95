// Save: a flush, then the image of the box in a lent area.
#![tactic(auto)]

ghost use Rattle.std.specs.Prelude.{◌≡◌, ◌≤◌, OnOk};
ghost use Rattle.refusal.specs.Numbers.{number_of};
ghost use Rattle.tables.specs.Index.{Blank, Indexed};
ghost use Rattle.parts.specs.Rep.{numbers_of};
ghost use Rattle.refusals.specs.Given.{counters_of, lent};
ghost use Rattle.image.specs.Area.{applied, save_writes};
ghost use Rattle.image.specs.Saved.{lru_saver, save_refusal};
ghost use Rattle.restoring.specs.Given.{long_of};
ghost use Rattle.saving.specs.Given.{box_body, Writable, told, saved_by};

use checks::index;
use counters::Counters;
use outcome::{Outcome, refused};
use parts::BoxRecord;
use policy::Answered;
use refusal::Refusal;
use tables::row;

// The bytes of the body of a box.
pub(crate) fn body_length(b: BoxRecord) -> u32
    requires { (b.rows ≤ 1024) × (b.slots ≤ 256) }
    ensures { result ≡ long_of b }
{
    (92 + b.rows * row::BYTES + b.slots * row::BYTES) as u32
}

// What a save is refused with: as a full flush, then 14. Where there is none, `heads`, 0 everywhere at first, is the index of the block rows.
pub(crate) fn save_refusal(
    b: BoxRecord,
    disk: &[u8],
    flash: &[u8],
    addresses: &[u8],
    blocks: &[u8],
    area: &[u8],
    c: Counters,
    heads: &mut [u16],
) -> Result<(), Refusal>
    requires { Blank heads.old }
    ensures value { number_of result ≡ save_refusal (lru_saver (numbers_of b)) (lent b disk.now flash.now addresses.now blocks.now
        (counters_of c)) area.now }
    ensures indexed { OnOk result (Indexed b.slots blocks.now heads.new) }
{
    refusals::of_flush(b, disk, flash, addresses, blocks, c, heads)?;
    let n = body_length(b);
    if restoring::too_short(area, n) {
        return Err(Refusal::NoRoom);
    }
    Ok(())
}

// Writes the image of a box into the area.
pub(crate) fn write_box(area: &mut [u8], b: BoxRecord, addresses: &[u8], blocks: &[u8])
    requires { Writable b addresses.now blocks.now area.old }
    ensures { area.new ≡ applied (save_writes (box_body b addresses.now blocks.now)) area.old }
{
    let numbers = [
        0u32,
        b.size as u32,
        b.blocks as u32,
        b.rows as u32,
        b.slots as u32,
        b.held as u32,
        b.limit as u32,
    ];
    let label = b.label;
    let lists = [0u8; 0];
    let n = body_length(b);
    area::write_image(area, &numbers, &label, addresses, blocks, &lists, n);
}

// Save: the box is flushed and its image written into the area. A refused save keeps all.
pub fn save(
    b: BoxRecord,
    disk: &mut [u8],
    flash: &[u8],
    addresses: &mut [u8],
    blocks: &[u8],
    area: &mut [u8],
    c: Counters,
) -> Outcome<Answered, BoxRecord>
    ensures { told result disk.new flash.now addresses.new blocks.now area.new
        ≡ saved_by b (lent b disk.old flash.now addresses.old blocks.now (counters_of c)) area.old }
{
    let mut heads = [0u16; index::ENTRIES];
    if let Err(r) = save_refusal(b, disk, flash, addresses, blocks, area, c, &mut heads) {
        return refused(r, b, c);
    }
    let r = policy::calls::flush_served(b, b.rows, disk, flash, addresses, blocks, c, &heads);
    let next = r.box_record;
    write_box(area, next, addresses, blocks);
    r
}
