// The fingerprint of a block of the cache. Its length is a power of two from 64 to 4,096 and its label is 64 bytes, so that the padding is one chunk of 64.
ghost use Rattle.std.specs.Prelude.{◌≡◌, ◌++◌, length};
ghost use Rattle.hash.specs.Sha256 as S;
ghost use Rattle.hash.specs.LastChunk.{Size, bit_length, last_chunk};

use crate::{blocks, compress, digest, initial};

// The bit length of a label and a block of `size` bytes, in seven cases; 0 for what is no size.
#[tactic(auto, unfolding(crate::specs::LastChunk::bit_length))]
pub(crate) fn bit_length(size: usize) -> u64
    ensures { result ≡ bit_length size }
{
    match size {
        64 => 1024,
        128 => 1536,
        256 => 2560,
        512 => 4608,
        1024 => 8704,
        2048 => 16896,
        4096 => 33280,
        _ => 0,
    }
}

// The last chunk: 0x80, 55 zero bytes, then the bit length in 8 bytes, the most significant first.
pub(crate) fn last_chunk(bits: u64) -> [u8; 64]
    ensures { result ≡ last_chunk bits }
{
    let mut b = [0u8; 64];
    b[0] = 0x80;
    b[56..].copy_from_slice(&bits.to_be_bytes());
    b
}

// The fingerprint of a block under an office label: SHA-256 over the label and the block, which are not copied together.
pub fn labelled_sha256(label: [u8; 64], block: &[u8]) -> [u8; 32]
    requires { Size (length block.now) }
    ensures { result ≡ S.sha256 (label ++ block.now) }
{
    let last = last_chunk(bit_length(block.len()));
    let s = compress(initial(), &label);
    digest(compress(blocks(s, block), &last))
}
