// The cache on lent bytes.
#![tactic(auto)]

pub mod calls;
pub mod many;

// The word of an answer.
#[derive(Clone, Copy)]
pub enum Word {
    Hit,
    Miss,
    Same,
    New,
    Cache,
    Disk,
    Done,
}

// The answer of a served call: its word, the flash writes and the primary writes.
#[derive(Clone, Copy)]
pub struct Answered {
    pub word: Word,
    pub flashed: usize,
    pub primary: usize,
}

// The answer of a served folder read: the hits, the flash writes, the primary writes and the fetches.
#[derive(Clone, Copy)]
pub struct Batch {
    pub hits: usize,
    pub flashed: usize,
    pub primary: usize,
    pub fetches: usize,
}
