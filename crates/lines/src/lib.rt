// The form of a line of a list.
#![tactic(auto)]

mod numbers;
pub mod parse;
mod words;

// A line of a list that has the form: the box line with B, P, m and d, or a call with its address and the byte that fills its block.
#[derive(Clone, Copy)]
pub enum Command {
    Box(u32, u32, u32, u32),
    Read(u32),
    Look(u32),
    Flush,
    Through(u32, u8),
    Back(u32, u8),
    Invalidate(u32, u8),
}
