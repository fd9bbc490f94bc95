// Blocks of the flash and of the disk in lent slices. A slot and an address have a type each, so that neither is taken for the other.
#![tactic(auto)]

ghost use Rattle.std.specs.Prelude.{◌≡◌, ◌+◌, ◌*◌, ◌≤◌, length};
ghost use Rattle.block.specs.Blocks.{part, splice};

use tables::{FlashSlot, SourceAddress};

// Copies src into dst from index at on.
pub fn put(src: &[u8], dst: &mut [u8], at: usize)
    requires { at + length src.now ≤ length dst.old }
    ensures { dst.new ≡ splice at src.now dst.old }
{
    dst[at..at + src.len()].copy_from_slice(src);
}

// The `size` bytes from index `at` on.
fn part<'a>(bytes: &'a [u8], at: usize, size: usize) -> &'a [u8]
    requires { at + size ≤ length bytes.now }
    ensures { (result.now ≡ part at size bytes.now) × (length result.now ≡ size) }
{
    &bytes[at..at + size]
}

// The block in `slot` of the flash, of `size` bytes.
pub fn in_slot<'a>(flash: &'a [u8], slot: FlashSlot, size: usize) -> &'a [u8]
    requires { slot.0 * size + size ≤ length flash.now }
    ensures { (result.now ≡ part (slot.0 * size) size flash.now) × (length result.now ≡ size) }
{
    part(flash, slot.0 as usize * size, size)
}

// The block at the address `a` of the disk, of `size` bytes.
pub fn at_address<'a>(disk: &'a [u8], a: SourceAddress, size: usize) -> &'a [u8]
    requires { a.0 * size + size ≤ length disk.now }
    ensures { (result.now ≡ part (a.0 * size) size disk.now) × (length result.now ≡ size) }
{
    part(disk, a.0 as usize * size, size)
}

// Writes the block `src`, of `size` bytes, into `slot` of the flash.
pub fn put_slot(src: &[u8], flash: &mut [u8], slot: FlashSlot, size: usize)
    requires { (length src.now ≡ size) × (slot.0 * size + size ≤ length flash.old) }
    ensures { flash.new ≡ splice (slot.0 * size) src.now flash.old }
{
    put(src, flash, slot.0 as usize * size);
}

// Writes the block `src`, of `size` bytes, to the address `a` of the disk.
pub fn put_address(src: &[u8], disk: &mut [u8], a: SourceAddress, size: usize)
    requires { (length src.now ≡ size) × (a.0 * size + size ≤ length disk.old) }
    ensures { disk.new ≡ splice (a.0 * size) src.now disk.old }
{
    put(src, disk, a.0 as usize * size);
}
