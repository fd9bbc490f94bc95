// The refusals of a folder read: 1, 12, 2, 10, 3, 6, 7, 8, 13, 9.
ghost use Rattle.std.specs.Prelude.{◌≡◌, ◌*◌, eqb};
ghost use Rattle.refusal.specs.Numbers.{number_of};
ghost use Rattle.paper.specs.BatchLent.{any_outside, batch_refusal};
ghost use Rattle.parts.specs.Rep.{numbers_of};
ghost use Rattle.refusals.specs.Given.{counters_of, lent};
ghost use Rattle.refusals.specs.Checks.{list_refusal};

use crate::{of_opening, of_state};
use checks::index;
use counters::Counters;
use parts::BoxRecord;
use refusal::Refusal;

// Whether `n` times `s` is `len`, of any numbers.
pub fn product_is(n: usize, s: usize, len: usize) -> bool
    ensures { result ≡ eqb len (n * s) }
{
    if s == 0 {
        return len == 0;
    }
    if len % s != 0 {
        return false;
    }
    len / s == n
}

// Whether an address is `p` or more.
pub(crate) fn any_outside(asked: &[u32], p: usize) -> bool
    ensures { result ≡ any_outside p asked.now }
{
    asked.iter().any(|&a| p <= a as usize)
}

// What the list and a buffer of `len` bytes are refused with.
pub fn of_list(b: BoxRecord, asked: &[u32], len: usize) -> Result<(), Refusal>
    ensures { number_of result ≡ list_refusal b asked.now len }
{
    if !product_is(asked.len(), b.size, len) {
        return Err(Refusal::WrongLength);
    }
    if asked.is_empty() {
        return Err(Refusal::BadCount);
    }
    if 64 < asked.len() {
        return Err(Refusal::BadCount);
    }
    if any_outside(asked, b.blocks) {
        return Err(Refusal::NoAddress);
    }
    Ok(())
}

// The refusal of a folder read.
pub fn of_many(
    b: BoxRecord,
    asked: &[u32],
    disk: &[u8],
    flash: &[u8],
    addresses: &[u8],
    blocks: &[u8],
    c: Counters,
    buffer: &[u8],
) -> Result<(), Refusal>
    ensures { number_of result ≡ batch_refusal (numbers_of b) (lent b disk.now flash.now addresses.now blocks.now
        (counters_of c)) asked.now buffer.now }
{
    of_opening(b, disk, flash, addresses, blocks)?;
    of_list(b, asked, buffer.len())?;
    let mut heads = [0u16; index::ENTRIES];
    of_state(b, addresses, blocks, c, &mut heads)
}
