// Tables of rows in lent bytes.
#![tactic(auto)]

pub mod distinct;
pub mod find;
pub mod fresh;
pub mod moves;
pub mod put;
pub mod row;
pub mod shift;

// A source address, a block number of the disk.
#[derive(Clone, Copy)]
pub struct SourceAddress(pub u32);

// A slot, a block number of the flash.
#[derive(Clone, Copy)]
pub struct FlashSlot(pub u32);
