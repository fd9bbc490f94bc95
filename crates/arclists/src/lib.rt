// "its lists T1, T2, B1, B2, B3, oldest first, end to end in m × 4 bytes, little-endian, zeros after": the moves of Algorithm 3 on them, and their part of
// refusal 6.
#![tactic(auto)]

pub mod adapt;
pub mod ghosts;
pub mod leave;
pub mod moves;
pub mod names;
pub mod replace;
pub mod sizes;
pub mod unsound;
pub mod words;

// "the record has their sizes and the number p"; with them "C (cached blocks, its d) and X (extra addresses)".
#[derive(Clone, Copy)]
pub struct ListSizes {
    pub t1: usize,
    pub t2: usize,
    pub b1: usize,
    pub b2: usize,
    pub b3: usize,
    pub p: usize,
    pub cached: usize,
    pub extra: usize,
}

// The five lists.
#[derive(Clone, Copy)]
pub enum ListName {
    T1,
    T2,
    B1,
    B2,
    B3,
}

// What is left when an address leaves, and the list that it was in: "which list it was is remembered".
#[derive(Clone, Copy)]
pub struct Left {
    pub sizes: ListSizes,
    pub was: Option<ListName>,
}
