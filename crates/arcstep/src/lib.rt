// The step of one request of a D-ARC box, on lent bytes: the rows, the blocks and the five lists of a paper box that runs through the parts of the step.
#![tactic(auto)]

pub mod ends;
pub mod evict;
pub mod insert;
pub mod metadata;
pub mod request;
pub mod victim;

use arclists::{ListName, ListSizes};

// What runs through the parts of a step: how many rows are held, the lists' sizes with p, C and X, the blocks stored in the flash, and those copied
// to the disk.
#[derive(Clone, Copy)]
pub struct Running {
    pub held: usize,
    pub sizes: ListSizes,
    pub flashed: usize,
    pub primary: usize,
}

// What runs on, and the place of the block row that can be taken then, the count of block rows for none: a number, as `victim_at` of the specs has it.
#[derive(Clone, Copy)]
pub struct Cleared {
    pub running: Running,
    pub place: usize,
}

// What runs on when the requested address has left, and the list that it was in.
#[derive(Clone, Copy)]
pub struct Parted {
    pub running: Running,
    pub was: Option<ListName>,
}
