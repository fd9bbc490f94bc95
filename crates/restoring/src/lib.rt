// A restore: what it refuses an area with, and the box, of either kind, that it finds there.
#![tactic(auto)]

mod arc_body;

ghost use Rattle.std.specs.Prelude.{◌≡◌, false, ◌+◌, ◌*◌, ◌≤◌, length, take, drop, IfOk};
ghost use Rattle.tables.specs.Rows.{le4, table_bytes};
ghost use Rattle.tables.specs.Find.{all};
ghost use Rattle.tables.specs.Sound.{is_zero};
ghost use Rattle.paper.specs.Lent.{unfit, limit_outside};
ghost use Rattle.parts.specs.Rep.{numbers_of};
ghost use Rattle.refusal.specs.Numbers.{number_of};
ghost use Rattle.image.specs.Body.{no_body};
ghost use Rattle.image.specs.Image.{no_image, too_short, body_in, image_refusal};
ghost use Rattle.image.specs.Kinds.{kinds};
ghost use Rattle.image.specs.Saved as Saved;
ghost use Rattle.restoring.specs.Given.{arc_of, box_in, as_arc, as_box, body_fields, Laid, other_lengths, failing, records_of, left};

use arclists::ListSizes;
use arcrefusals::ArcRecord;
use checks::index;
use parts::BoxRecord;
use refusal::Refusal;
use tables::row;

// Whether all bytes are zero.
pub(crate) fn all_zero(t: &[u8]) -> bool
    ensures { result ≡ all is_zero t.now }
{
    t.iter().all(|&x| x == 0)
}

// 15: whether the area's header is no image of version 1.
pub(crate) fn no_image(area: &[u8]) -> bool
    ensures { result ≡ no_image area.now }
{
    area.len() < 64
        || !area::has_mark(area)
        || area[3] != 1
        || area[4] != 0
        || !all_zero(&area[9..64])
}

// 14: whether the area is too short for a header and a body of `n` bytes with its fill.
pub fn too_short(area: &[u8], n: u32) -> bool
    ensures { result ≡ too_short area.now n }
{
    let writes = (n as usize).div_ceil(64);
    area.len() < 64 + writes * 64
}

// A label in a body.
pub(crate) fn label_in(part: &[u8]) -> [u8; 64]
    requires { length part.now ≡ 64 }
    ensures { result ≡ part.now }
{
    let mut label = [0u8; 64];
    label.copy_from_slice(part);
    label
}

// The record in a body of a D-LRU box.
pub(crate) fn record_in(body: &[u8]) -> BoxRecord
    requires { 92 ≤ length body.now }
    ensures { result ≡ box_in body.now }
{
    BoxRecord {
        size: row::word_at(body, 4) as usize,
        blocks: row::word_at(body, 8) as usize,
        rows: row::word_at(body, 12) as usize,
        slots: row::word_at(body, 16) as usize,
        held: row::word_at(body, 20) as usize,
        label: label_in(&body[28..92]),
        limit: row::word_at(body, 24) as usize,
    }
}

// Whether the tables of a box with fit numbers fail 6, 7, 8 or 13.
pub(crate) fn tables_fail(b: BoxRecord, addresses: &[u8], blocks: &[u8]) -> bool
    requires { (b.blocks ≤ 65536) × (b.rows ≤ 1024) × (b.slots ≤ 256) × (length addresses.now ≡ table_bytes b.rows)
        × (length blocks.now ≡ table_bytes b.slots) }
    ensures { unfit (numbers_of b) ≡ false → limit_outside (numbers_of b) ≡ false
        → result ≡ failing b addresses.now blocks.now }
{
    let mut heads = [0u16; index::ENTRIES];
    refusals::of_tables(b, addresses, blocks, &mut heads).is_err()
}

// Whether a D-LRU body whose record `b` has fit numbers isn't as long as that says, or fails 6, 7, 8 or 13.
pub(crate) fn sized_fails(b: BoxRecord, body: &[u8]) -> bool
    requires { (b.blocks ≤ 65536) × (b.rows ≤ 1024) × (b.slots ≤ 256) }
    ensures { unfit (numbers_of b) ≡ false → limit_outside (numbers_of b) ≡ false → b ≡ box_in body.now → le4 body.now 0 ≡ 0
        → result ≡ no_body kinds body.now }
{
    let at = 92 + b.rows * row::BYTES;
    let end = at + b.slots * row::BYTES;
    if body.len() != end {
        return true;
    }
    tables_fail(b, &body[92..at], &body[at..end])
}

// Whether a D-LRU body whose record is `b` isn't as long as that says, or fails 1, 12, 6, 7, 8 or 13.
pub(crate) fn box_fails(b: BoxRecord, body: &[u8]) -> bool
    ensures { b ≡ box_in body.now → le4 body.now 0 ≡ 0 → result ≡ no_body kinds body.now }
{
    if refusals::numbers_unfit(b) {
        return true;
    }
    if refusals::limit_unfit(b) {
        return true;
    }
    sized_fails(b, body)
}

// 16: whether these bytes are no body.
pub(crate) fn no_body(body: &[u8]) -> bool
    ensures { result ≡ no_body kinds body.now }
{
    if body.len() < 92 {
        return true;
    }
    match row::word_at(body, 0) {
        0 => box_fails(record_in(body), body),
        1 => arc_body::arc_fails(body),
        _ => true,
    }
}

// The body in an area that has an image, else refusal 15, 14 or 16.
pub(crate) fn body_in<'a>(area: &'a [u8]) -> Result<&'a [u8], Refusal>
    ensures value { number_of result ≡ image_refusal kinds area.now }
    ensures body { IfOk result (λ body. body.now ≡ body_in area.now) }
{
    if no_image(area) {
        return Err(Refusal::NoImage);
    }
    let n = row::word_at(area, 5);
    if too_short(area, n) {
        return Err(Refusal::NoRoom);
    }
    let end = 64 + n as usize;
    let body = &area[64..end];
    if no_body(body) {
        return Err(Refusal::BadImage);
    }
    Ok(body)
}

// What a restore finds in a body: the record, and where the tables and the lists lie, from `start` on, as long as these numbers say.
#[derive(Clone, Copy)]
pub(crate) struct Found {
    pub arc_record: ArcRecord,
    pub start: usize,
    pub addresses: usize,
    pub blocks: usize,
    pub lists: usize,
}

// The numbers of a D-LRU record as those of a D-ARC one, whose p and list sizes are 0.
pub(crate) fn as_arc(b: BoxRecord) -> ArcRecord
    ensures { result ≡ as_arc b }
{
    let label = b.label;
    ArcRecord {
        size: b.size,
        blocks: b.blocks,
        held: b.held,
        label,
        limit: b.limit,
        sizes: ListSizes {
            t1: 0,
            t2: 0,
            b1: 0,
            b2: 0,
            b3: 0,
            p: 0,
            cached: b.rows,
            extra: b.slots,
        },
    }
}

// What lies in a body of a D-LRU box.
pub(crate) fn lru_found(body: &[u8]) -> Found
    requires { (no_body kinds body.now ≡ false) × (le4 body.now 0 ≡ 0) }
    ensures arc_record_value { result.arc_record ≡ arc_of (body_fields body.now) }
    ensures laid { Laid body.now (body_fields body.now) result.start result.addresses result.blocks result.lists }
{
    let b = record_in(body);
    Found {
        arc_record: as_arc(b),
        start: 92,
        addresses: b.rows * row::BYTES,
        blocks: b.slots * row::BYTES,
        lists: 0,
    }
}

// What lies in a body.
pub(crate) fn found_in(body: &[u8]) -> Found
    requires { no_body kinds body.now ≡ false }
    ensures arc_record_value { result.arc_record ≡ arc_of (body_fields body.now) }
    ensures laid { Laid body.now (body_fields body.now) result.start result.addresses result.blocks result.lists }
{
    if row::word_at(body, 0) == 0 {
        return lru_found(body);
    }
    arc_body::arc_found(body)
}

// 2: whether what is lent hasn't the lengths of what was found.
pub(crate) fn wrong_tables(f: Found, addresses: usize, blocks: usize, lists: usize) -> bool
    ensures { result ≡ other_lengths f addresses blocks lists }
{
    addresses != f.addresses || blocks != f.blocks || lists != f.lists
}

// Copies the tables and the lists that were found in a body into those lent.
pub(crate) fn take_tables(
    f: Found,
    body: &[u8],
    addresses: &mut [u8],
    blocks: &mut [u8],
    lists: &mut [u8],
)
    requires { (f.start + f.addresses + f.blocks + f.lists ≡ length body.now) × (length addresses.old ≡ f.addresses)
        × (length blocks.old ≡ f.blocks) × (length lists.old ≡ f.lists) }
    ensures addresses_after { addresses.new ≡ take f.addresses (drop f.start body.now) }
    ensures blocks_after { blocks.new ≡ take f.blocks (drop (f.start + f.addresses) body.now) }
    ensures lists_after { lists.new ≡ take f.lists (drop (f.start + f.addresses + f.blocks) body.now) }
{
    let first = f.start;
    let second = first + f.addresses;
    let third = second + f.blocks;
    let end = third + f.lists;
    addresses.copy_from_slice(&body[first..second]);
    blocks.copy_from_slice(&body[second..third]);
    lists.copy_from_slice(&body[third..end]);
}

// What a restore gives back: the record of a box of either kind, by the first number of the body.
#[derive(Clone, Copy)]
pub struct Restored {
    pub box_record: BoxRecord,
    pub arc_record: ArcRecord,
}

// Both records; a D-LRU box's m and d lie where a D-ARC box's C and X do.
pub(crate) fn given_back(a: ArcRecord) -> Restored
    ensures { result ≡ record { box_record = as_box a; arc_record = a } }
{
    let label = a.label;
    Restored {
        box_record: BoxRecord {
            size: a.size,
            blocks: a.blocks,
            rows: a.sizes.cached,
            slots: a.sizes.extra,
            held: a.held,
            label,
            limit: a.limit,
        },
        arc_record: a,
    }
}

// The records that a restore gives back: those of zeros where it was refused.
#[tactic(auto, unfolding(tables::specs::Rows::zeros))]
pub fn records(restored: &Result<Restored, Refusal>) -> Restored
    ensures { result ≡ records_of restored.now }
{
    match restored {
        Ok(r) => *r,
        Err(_) => given_back(as_arc(parts::empty_box(0, 0, 0, 0, 0, [0; 64]))),
    }
}

// Restores the box whose image is in the area: the tables and the lists are filled, the header is cleared, and the record is given back.
pub fn restore(
    area: &mut [u8],
    addresses: &mut [u8],
    blocks: &mut [u8],
    lists: &mut [u8],
) -> Result<Restored, Refusal>
    ensures { record {
      number = number_of result;
      given = (records_of result).box_record;
      arc = (records_of result).arc_record;
      area = area.new;
      addresses = addresses.new;
      blocks = blocks.new;
      lists = lists.new;
    }
        ≡ left (Saved.restore kinds area.old addresses.old blocks.old lists.old) }
{
    let body = body_in(area)?;
    let f = found_in(body);
    if wrong_tables(f, addresses.len(), blocks.len(), lists.len()) {
        return Err(Refusal::WrongLength);
    }
    take_tables(f, body, addresses, blocks, lists);
    area::clear_header(area);
    Ok(given_back(f.arc_record))
}
