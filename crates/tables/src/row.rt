// A row's bytes. Only this file knows how many a row has, and where a field stands in it.
ghost use Rattle.std.specs.Prelude.{◌≡◌, ◌&&◌, ◌+◌, ◌<◌, ◌≤◌, eqb, length, get_or};
ghost use Rattle.tables.specs.Rows.{row_at, row_bytes, le4, le8, HasRow, IsPrint};
ghost use Rattle.tables.specs.Find.{all, is_dirty, is_used};
ghost use Rattle.tables.specs.Records.{bytes2, read_address, read_block, address_bytes, address_row, block_bytes, free_row};
ghost use Rattle.tables.specs.Operations.{filled, freed_row, row_cleaned};
ghost use Rattle.tables.specs.Sound.{is_zero, tail_ok, seated_tail, zero_row};

use crate::{FlashSlot, SourceAddress, moves};

// The bytes of a row.
pub const BYTES: usize = 40;

// The bytes of a fingerprint. A block row begins with its own.
const PRINT: usize = 32;

// Where an address row has its address: at its front.
pub(crate) const ADDRESS: usize = 0;

// Where an address row has its fingerprint: behind its address.
const ADDRESS_PRINT: usize = 4;

// Where a block row has its slot: behind its fingerprint.
pub(crate) const SLOT: usize = 32;

// Where a row has the byte that says dirty or used.
const FLAG: usize = 36;

// The bytes of a row from there on: that byte, and three zero bytes, of which the first two are a held address row's seat.
const TAIL: usize = 4;

// Where an address row has its seat: the low byte behind its dirty byte, then the high byte.
const SEAT: usize = 37;

const SEAT_HIGH: usize = 38;

// The last byte of a row, which is zero.
const LAST: usize = 39;

// The four bytes from index `at` on, little-endian.
pub fn word_at(t: &[u8], at: usize) -> u32
    requires { at + 4 ≤ length t.now }
    ensures { result ≡ le4 t.now at }
{
    u32::from_le_bytes([t[at], t[at + 1], t[at + 2], t[at + 3]])
}

// The eight bytes from index `at` on, little-endian.
pub fn word8(t: &[u8], at: usize) -> u64
    requires { at + 8 ≤ length t.now }
    ensures { result ≡ le8 t.now at }
{
    u64::from_le_bytes([
        t[at],
        t[at + 1],
        t[at + 2],
        t[at + 3],
        t[at + 4],
        t[at + 5],
        t[at + 6],
        t[at + 7],
    ])
}

// The number of four bytes at place `at` of row `k`.
pub(crate) fn number_at(t: &[u8], k: usize, at: usize) -> u32
    requires { HasRow t.now k × (at + 4 ≤ row_bytes) }
    ensures { result ≡ le4 (row_at t.now k) at }
{
    word_at(t, k * BYTES + at)
}

// Row `k`, as a part of the table.
pub(crate) fn part<'a>(t: &'a [u8], k: usize) -> &'a [u8]
    requires { HasRow t.now k }
    ensures { (result.now ≡ row_at t.now k) × (length result.now ≡ row_bytes) }
{
    let at = k * BYTES;
    let end = at + BYTES;
    &t[at..end]
}

// The address in row `k` of an address table.
pub fn address_at(t: &[u8], k: usize) -> SourceAddress
    requires { HasRow t.now k }
    ensures { result.0 ≡ (read_address (row_at t.now k)).address }
{
    SourceAddress(word_at(t, k * BYTES + ADDRESS))
}

// The fingerprint in row `k` of an address table, as a part of it.
pub fn address_fingerprint<'a>(t: &'a [u8], k: usize) -> &'a [u8]
    requires { HasRow t.now k }
    ensures { (result.now ≡ (read_address (row_at t.now k)).fingerprint) × IsPrint result.now }
{
    let at = k * BYTES + ADDRESS_PRINT;
    let end = at + PRINT;
    &t[at..end]
}

// Whether row `k` of an address table is dirty.
pub fn is_dirty(t: &[u8], k: usize) -> bool
    requires { HasRow t.now k }
    ensures { result ≡ is_dirty (row_at t.now k) }
{
    t[k * BYTES + FLAG] == 1
}

// The seat in row `k` of an address table.
pub fn seat_at(t: &[u8], k: usize) -> u16
    requires { HasRow t.now k }
    ensures { bytes2 result ≡ (read_address (row_at t.now k)).seat }
{
    let at = k * BYTES;
    u16::from_le_bytes([t[at + SEAT], t[at + SEAT_HIGH]])
}

// The fingerprint in row `k` of a block table, as a part of it.
// It stands beside `part`: that is all 40 bytes of the row, this the first 32 of them, and each has a contract of its own.
pub fn block_fingerprint<'a>(t: &'a [u8], k: usize) -> &'a [u8]
    requires { HasRow t.now k }
    ensures { (result.now ≡ (read_block (row_at t.now k)).fingerprint) × IsPrint result.now }
{
    let at = k * BYTES;
    let end = at + PRINT;
    &t[at..end]
}

// The slot in row `k` of a block table.
pub fn slot_at(t: &[u8], k: usize) -> FlashSlot
    requires { HasRow t.now k }
    ensures { result.0 ≡ (read_block (row_at t.now k)).slot }
{
    FlashSlot(word_at(t, k * BYTES + SLOT))
}

// Whether row `k` of a block table is used.
pub fn is_used(t: &[u8], k: usize) -> bool
    requires { HasRow t.now k }
    ensures { result ≡ is_used (row_at t.now k) }
{
    t[k * BYTES + FLAG] == 1
}

// Whether the last four bytes of row `k` are a byte that is 0 or 1 and three zeros: as a number, at most 1.
pub fn tail_ok(t: &[u8], k: usize) -> bool
    requires { HasRow t.now k }
    ensures { result ≡ tail_ok (row_at t.now k) }
{
    word_at(t, k * BYTES + FLAG) <= 1
}

// Whether, of the last four bytes of row `k` of an address table, the first is 0 or 1 and the last 0.
pub fn seated_tail_ok(t: &[u8], k: usize) -> bool
    requires { HasRow t.now k }
    ensures { result ≡ seated_tail (row_at t.now k) }
{
    let at = k * BYTES;
    (t[at + FLAG] <= 1) & (t[at + LAST] == 0)
}

// Whether the first four words of `s` are all `z`.
pub(crate) fn words_are(s: &[u8], z: u64) -> bool
    requires { 32 ≤ length s.now }
    ensures { result ≡ ((eqb (le8 s.now 0) z && eqb (le8 s.now 8) z) && eqb (le8 s.now 16) z)
        && eqb (le8 s.now 24) z }
{
    (word8(s, 0) == z) & (word8(s, 8) == z) & (word8(s, 16) == z) & (word8(s, 24) == z)
}

// Whether all bytes of row `k` are zero: its words are the same, and the last is zero. (A word that is compared with 0 is taken apart
// into bytes by the compiler, one that is compared with another is not.)
pub fn is_zero(t: &[u8], k: usize) -> bool
    requires { HasRow t.now k }
    ensures { result ≡ zero_row (row_at t.now k) }
{
    let s = part(t, k);
    let z = word8(s, 32);
    words_are(s, z) & (z == 0)
}

// Whether row `k` of a block table has a fingerprint of zeros.
// It stands beside `is_zero`: that looks at the row's 40 bytes, this at the first 32 of them. What both do is in `words_are`.
pub fn no_fingerprint(t: &[u8], k: usize) -> bool
    requires { HasRow t.now k }
    ensures { result ≡ all is_zero (read_block (row_at t.now k)).fingerprint }
{
    let g = block_fingerprint(t, k);
    let z = word8(g, 24);
    words_are(g, z) & (z == 0)
}

// A copy of row `k`.
pub(crate) fn copy(t: &[u8], k: usize) -> [u8; BYTES]
    requires { HasRow t.now k }
    ensures { result ≡ row_at t.now k }
{
    let mut row = [0u8; BYTES];
    moves::write(&mut row, 0, part(t, k));
    row
}

// The address row of `a`, `g`, `dirty` and `seat`.
pub(crate) fn new_address(a: SourceAddress, g: &[u8], dirty: u8, seat: u16) -> [u8; BYTES]
    requires { IsPrint g.now }
    ensures { result ≡ address_bytes (address_row a.0 g.now dirty (bytes2 seat)) }
{
    let mut row = [0u8; BYTES];
    moves::write(&mut row, ADDRESS, &a.0.to_le_bytes());
    moves::write(&mut row, ADDRESS_PRINT, g);
    row[FLAG] = dirty;
    let [low, high] = seat.to_le_bytes();
    row[SEAT] = low;
    row[SEAT_HIGH] = high;
    row
}

// The free block row of a slot.
pub(crate) fn free(s: FlashSlot) -> [u8; BYTES]
    ensures { result ≡ block_bytes (free_row s.0) }
{
    let mut row = [0u8; BYTES];
    moves::write(&mut row, SLOT, &s.0.to_le_bytes());
    row
}

// Row `k` of a block table, filled with the fingerprint `g`.
pub(crate) fn filled(t: &[u8], k: usize, g: &[u8]) -> [u8; BYTES]
    requires { HasRow t.now k × IsPrint g.now }
    ensures { result ≡ filled g.now (row_at t.now k) }
{
    let mut row = copy(t, k);
    moves::write(&mut row, 0, g);
    moves::clear(&mut row, FLAG, TAIL);
    row[FLAG] = 1;
    row
}

// Row `k` of a block table, freed: used 0 and no fingerprint, with its slot.
pub(crate) fn freed(t: &[u8], k: usize) -> [u8; BYTES]
    requires { HasRow t.now k }
    ensures { result ≡ freed_row (row_at t.now k) }
{
    let mut row = copy(t, k);
    moves::clear(&mut row, 0, PRINT);
    moves::clear(&mut row, FLAG, TAIL);
    row
}

// Makes row `k` of an address table clean.
pub fn set_clean(t: &mut [u8], k: usize)
    requires { HasRow t.old k }
    ensures { t.new ≡ row_cleaned k t.old }
{
    t[k * BYTES + FLAG] = 0;
}
