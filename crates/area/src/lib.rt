// The writes of a save on a lent area, and the mark that a restore looks for.
#![tactic(auto)]

ghost use Rattle.std.specs.Prelude.{◌≡◌, ◌∷◌, [], ◌+◌, ◌*◌, ◌<◌, ◌≤◌, length, take, drop, get_or, map, IfSome};
ghost use Rattle.tables.specs.Rows.{flat};
ghost use Rattle.tables.specs.Find.{same};
ghost use Rattle.block.specs.Blocks.{splice};
ghost use Rattle.image.specs.Area.{mark, writes_for, put, applied, body_write, body_writes, header, clearing, save_writes};
ghost use Rattle.area.specs.Given.{body_from, bytes_of};

// The version of an image, in two bytes behind the mark.
pub const VERSION: u16 = 1;

// Writes the mark at the start of the area.
pub fn put_mark(area: &mut [u8])
    requires { 3 ≤ length area.old }
    ensures { area.new ≡ splice 0 mark area.old }
{
    block::put(b"VBX", area, 0);
}

// Whether the area starts with the mark.
pub fn has_mark(area: &[u8]) -> bool
    requires { 3 ≤ length area.now }
    ensures { result ≡ same (take 3 area.now) mark }
{
    area.starts_with(b"VBX")
}

// What a body is made of: numbers of 4 bytes each, and four byte strings.
#[derive(Clone, Copy)]
pub(crate) struct Body<'a> {
    pub numbers: &'a [u32],
    pub strings: [&'a [u8]; 4],
}

// Byte `i` of byte strings laid end to end, 0 behind them.
pub(crate) fn string_byte(strings: &[&[u8]], i: usize) -> u8
    ensures { result ≡ get_or (flat (map (λ s. s.now) strings.now)) i 0 }
{
    let mut i = i;
    for s in strings {
        if i < s.len() {
            return s[i];
        }
        i -= s.len();
    }
    0
}

// Byte `i` of a body, 0 behind it.
pub(crate) fn body_byte(body: &Body, i: usize) -> u8
    requires { length body.now.numbers.now ≤ 13 }
    ensures { result ≡ get_or (bytes_of body.now) i 0 }
{
    let n = 4 * body.numbers.len();
    if i < n {
        let number = body.numbers[i / 4].to_le_bytes();
        return number[i % 4];
    }
    string_byte(&body.strings, i - n)
}

// The 64 bytes from index `i` on of byte strings laid end to end, where they lie in one of them.
pub(crate) fn string_part<'a>(strings: &[&'a [u8]], i: usize) -> Option<&'a [u8]>
    ensures { IfSome result (λ part. (length part.now ≡ 64) × (part.now ≡ take 64 (drop i (flat (map (λ s. s.now) strings.now))))) }
{
    let mut i = i;
    for s in strings {
        if i < s.len() {
            if s.len() - i < 64 {
                return None;
            }
            return Some(&s[i..i + 64]);
        }
        i -= s.len();
    }
    None
}

// The 64 bytes from index `i` on of a body, where they lie in one of its byte strings.
pub(crate) fn body_part<'a>(body: &Body<'a>, i: usize) -> Option<&'a [u8]>
    requires { length body.now.numbers.now ≤ 13 }
    ensures { IfSome result (λ part. (length part.now ≡ 64) × (part.now ≡ take 64 (drop i (bytes_of body.now)))) }
{
    let n = 4 * body.numbers.len();
    if i < n {
        return None;
    }
    string_part(&body.strings, i - n)
}

// The 64 bytes of write number `k` of a body. Most lie in one byte string, and are copied at once.
pub(crate) fn chunk(body: &Body, k: usize) -> [u8; 64]
    requires { (length body.now.numbers.now ≤ 13) × (k < 1024) × (k < writes_for (length (bytes_of body.now))) }
    ensures { result ≡ (body_write (bytes_of body.now) k).bytes }
{
    let mut bytes = [0u8; 64];
    if let Some(part) = body_part(body, k * 64) {
        bytes.copy_from_slice(part);
        return bytes;
    }
    for i in 0..64 {
        bytes[i] = body_byte(body, k * 64 + i);
    }
    bytes
}

// Writes 64 bytes at `place` of the area: one write of a save.
pub(crate) fn write(area: &mut [u8], place: usize, bytes: [u8; 64])
    requires { (place + 64 ≤ length area.old) × (length bytes ≡ 64) }
    ensures { area.new ≡ put area.old (record { place = place; bytes = bytes }) }
{
    block::put(&bytes, area, place);
}

// The first `n` writes of the body, in rising order.
pub(crate) fn put_body(area: &mut [u8], body: &Body, n: usize)
    requires { (length body.now.numbers.now ≤ 13) × (n ≤ 1024) × (64 + n * 64 ≤ length area.old)
        × (n ≡ writes_for (length (bytes_of body.now))) }
    ensures { area.new ≡ applied (body_writes (bytes_of body.now) n) area.old }
{
    for k in 0..n {
        let c = chunk(body, k);
        write(area, 64 + k * 64, c);
    }
}

// The 64 bytes of the header of a body of `n` bytes.
pub(crate) fn header_bytes(n: u32) -> [u8; 64]
    ensures { (result ≡ header n) × (length result ≡ 64) }
{
    let mut h = [0u8; 64];
    put_mark(&mut h);
    h[3..5].copy_from_slice(&VERSION.to_le_bytes());
    h[5..9].copy_from_slice(&n.to_le_bytes());
    h
}

// All writes of a save: the header is cleared, the body of `len` bytes is written in rising order, the header is written.
pub fn write_image<'a>(
    area: &mut [u8],
    numbers: &'a [u32],
    label: &'a [u8],
    addresses: &'a [u8],
    blocks: &'a [u8],
    lists: &'a [u8],
    len: u32,
)
    requires { (length numbers.now ≤ 13) × (len ≤ 65536) × (64 + writes_for len * 64 ≤ length area.old)
        × (len ≡ length (body_from numbers.now label.now addresses.now blocks.now lists.now)) }
    ensures { area.new ≡ applied (save_writes (body_from numbers.now label.now addresses.now blocks.now
        lists.now)) area.old }
{
    let body = Body {
        numbers,
        strings: [label, addresses, blocks, lists],
    };
    let n = (len + 63) / 64;
    write(area, 0, [0u8; 64]);
    put_body(area, &body, n as usize);
    write(area, 0, header_bytes(len));
}

// Clears the header: the first write of a save, and what a restore leaves of it.
pub fn clear_header(area: &mut [u8])
    requires { 64 ≤ length area.old }
    ensures { area.new ≡ put area.old clearing }
{
    write(area, 0, [0u8; 64]);
}
