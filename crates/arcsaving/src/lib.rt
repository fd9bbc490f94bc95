// Save of a D-ARC box: a flush, then its image in a lent area.
#![tactic(auto)]

ghost use Rattle.std.specs.Prelude.{◌≡◌, ◌≤◌, OnOk};
ghost use Rattle.refusal.specs.Numbers.{number_of};
ghost use Rattle.tables.specs.Index.{Blank, Indexed};
ghost use Rattle.refusals.specs.Given.{counters_of};
ghost use Rattle.image.specs.Area.{applied, save_writes};
ghost use Rattle.image.specs.Saved.{arc_saver, save_refusal};
ghost use Rattle.arcrefusals.specs.Given.{sizes_of, arc_lent};
ghost use Rattle.restoring.specs.Given.{arc_long};
ghost use Rattle.arcsaving.specs.Given.{arc_body, Writable, arc_saved_told, arc_saved_by};

use arccalls::flushes;
use arcrefusals::ArcRecord;
use checks::index;
use counters::Counters;
use outcome::{Outcome, refused};
use policy::Answered;
use refusal::Refusal;
use tables::row;

// The bytes of the body of a box: 52 of numbers, 64 of label, the tables and the lists.
pub(crate) fn body_length(a: ArcRecord) -> u32
    requires { (a.sizes.cached ≤ 256) × (a.sizes.extra ≤ 1024) }
    ensures { result ≡ arc_long a }
{
    let m = a.sizes.cached + a.sizes.cached + a.sizes.extra;
    (116 + m * row::BYTES + a.sizes.cached * row::BYTES + m * 4) as u32
}

// What a save is refused with: as a full flush, then 14. Where there is none, `heads`, 0 everywhere at first, is the index of the block rows.
pub(crate) fn save_refusal(
    a: ArcRecord,
    disk: &[u8],
    flash: &[u8],
    addresses: &[u8],
    blocks: &[u8],
    lists: &[u8],
    area: &[u8],
    c: Counters,
    heads: &mut [u16],
) -> Result<(), Refusal>
    requires { Blank heads.old }
    ensures value { number_of result ≡ save_refusal (arc_saver (sizes_of a)) (arc_lent a disk.now flash.now addresses.now blocks.now
        lists.now (counters_of c)) area.now }
    ensures indexed { OnOk result (Indexed a.sizes.cached blocks.now heads.new) }
{
    arcrefusals::calls::arc_flush(a, disk, flash, addresses, blocks, lists, c, heads)?;
    let n = body_length(a);
    if restoring::too_short(area, n) {
        return Err(Refusal::NoRoom);
    }
    Ok(())
}

// Writes the image of a box into the area: "1, B, P, C, X, n, t, p and the five list sizes", then label, tables and lists.
pub(crate) fn write_arc(
    area: &mut [u8],
    a: ArcRecord,
    addresses: &[u8],
    blocks: &[u8],
    lists: &[u8],
)
    requires { Writable a addresses.now blocks.now lists.now area.old }
    ensures { area.new ≡ applied (save_writes (arc_body a addresses.now blocks.now lists.now))
        area.old }
{
    let numbers = [
        1u32,
        a.size as u32,
        a.blocks as u32,
        a.sizes.cached as u32,
        a.sizes.extra as u32,
        a.held as u32,
        a.limit as u32,
        a.sizes.p as u32,
        a.sizes.t1 as u32,
        a.sizes.t2 as u32,
        a.sizes.b1 as u32,
        a.sizes.b2 as u32,
        a.sizes.b3 as u32,
    ];
    let label = a.label;
    let n = body_length(a);
    area::write_image(area, &numbers, &label, addresses, blocks, lists, n);
}

// Save: the box is flushed and its image written into the area. A refused save keeps all.
pub fn save(
    a: ArcRecord,
    disk: &mut [u8],
    flash: &[u8],
    addresses: &mut [u8],
    blocks: &[u8],
    lists: &[u8],
    area: &mut [u8],
    c: Counters,
) -> Outcome<Answered, ArcRecord>
    ensures { arc_saved_told result disk.new flash.now addresses.new blocks.now lists.now
        area.new
        ≡ arc_saved_by a (arc_lent a disk.old flash.now addresses.old blocks.now lists.now (counters_of c))
        area.old }
{
    let mut heads = [0u16; index::ENTRIES];
    if let Err(r) = save_refusal(
        a, disk, flash, addresses, blocks, lists, area, c, &mut heads,
    ) {
        return refused(r, a, c);
    }
    let k = flushes::rows_of(a);
    let r = flushes::flush_served(a, k, disk, flash, addresses, blocks, lists, c, &heads);
    let next = r.box_record;
    write_arc(area, next, addresses, blocks, lists);
    r
}
