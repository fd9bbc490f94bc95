// Prints the SHA-256 digests of the standard's example messages, and the fingerprint of a block of each size of the cache, one to a line.
#![tactic(auto)]

ghost use Rattle.std.specs.Prelude.{◌≡◌, ◌++◌, ◌<◌, length, replicate, OnOk};
ghost use Rattle.std.specs.Io.KnownBytes.{Appends};
ghost use Rattle.io.specs.Digits.{hex_digit_ascii as glyph_of};
ghost use Rattle.hash.specs.Sha256 as S;
ghost use Rattle.hash.specs.LastChunk.{Size};
ghost use Rattle.hash_vectors.specs.Hex as Hex;

use std::io;
use std::io::Write;

// The letter of a hexadecimal digit.
fn glyph(x: u8) -> u8
    requires { x < 16 }
    ensures { result ≡ glyph_of x }
{
    if x < 10 { b'0' + x } else { b'a' + (x - 10) }
}

// A digest in hexadecimal.
fn hex(digest: [u8; 32]) -> [u8; 64]
    ensures { result ≡ Hex.hex digest 32 }
{
    let mut text = [0u8; 64];
    for (i, x) in digest.iter().enumerate() {
        let high = glyph(x / 16);
        let low = glyph(x % 16);
        text[2 * i] = high;
        text[2 * i + 1] = low;
    }
    text
}

// The digest of a message, in hexadecimal.
fn of_message(message: &[u8]) -> [u8; 64]
    ensures { result ≡ Hex.hex (S.sha256 message.now) 32 }
{
    hex(hash::sha256(message))
}

// The fingerprint of a block under a label, in hexadecimal.
fn of_block(label: [u8; 64], block: &[u8]) -> [u8; 64]
    requires { Size (length block.now) }
    ensures { result ≡ Hex.hex (S.sha256 (label ++ block.now)) 32 }
{
    hex(hash::fingerprint::labelled_sha256(label, block))
}

// Writes a line with a digest and the name of what it is of.
fn line<W: Write>(out: &mut W, text: [u8; 64], name: &[u8]) -> io::Result<()>
    ensures { OnOk result (Appends (W.contents out.old) (W.contents out.new) (Hex.line text name.now)) }
{
    out.write_all(&text)?;
    out.write_all(b"  ")?;
    out.write_all(name)?;
    out.write_all(b"\n")
}

// Writes a line with a message's digest and its name.
fn show<W: Write>(out: &mut W, name: &[u8], message: &[u8]) -> io::Result<()>
    ensures { OnOk result (Appends (W.contents out.old) (W.contents out.new) (Hex.line (Hex.hex (S.sha256 message.now) 32) name.now)) }
{
    line(out, of_message(message), name)
}

// Writes a line with a block's fingerprint under a label of 64 letters, and its name.
fn show_block<W: Write>(out: &mut W, name: &[u8], block: &[u8]) -> io::Result<()>
    requires { Size (length block.now) }
    ensures { OnOk result (Appends (W.contents out.old) (W.contents out.new)
        (Hex.line (Hex.hex (S.sha256 (replicate 64 108 ++ block.now)) 32) name.now)) }
{
    line(out, of_block([b'l'; 64], block), name)
}

// A block of each size, of letters, under the label.
fn blocks<W: Write>(out: &mut W) -> io::Result<()> {
    let letters = [b'a'; 4096];
    show_block(out, b"l, 64 times, a, 64 times", &letters[0..64])?;
    show_block(out, b"l, 64 times, a, 128 times", &letters[0..128])?;
    show_block(out, b"l, 64 times, a, 256 times", &letters[0..256])?;
    show_block(out, b"l, 64 times, a, 512 times", &letters[0..512])?;
    show_block(out, b"l, 64 times, a, 1024 times", &letters[0..1024])?;
    show_block(out, b"l, 64 times, a, 2048 times", &letters[0..2048])?;
    show_block(out, b"l, 64 times, a, 4096 times", &letters[0..4096])
}

// A million letters.
fn million() -> [u8; 1000000]
    ensures { result ≡ replicate 1000000 97 }
{
    [b'a'; 1000000]
}

// The empty message, then the standard's messages of 24, 448 and 896 bits and of a million letters, then the blocks.
fn main(rt: HostRuntime) -> io::Result<()> {
    let mut out = io::writer(&rt);
    show(&mut out, b"empty", b"")?;
    show(&mut out, b"abc", b"abc")?;
    let two_blocks = b"abcdbcdecdefdefgefghfghighijhijkijkljklmklmnlmnomnopnopq";
    show(&mut out, two_blocks, two_blocks)?;
    let two_full_blocks =
        b"abcdefghbcdefghicdefghijdefghijkefghijklfghijklmghijklmnhijklmnoijklmnopjklmnopqklmnopqrlmnopqrsmnopqrstnopqrstu";
    show(&mut out, two_full_blocks, two_full_blocks)?;
    let letters = million();
    show(&mut out, b"a, a million times", &letters)?;
    blocks(&mut out)
}
