// Replay: a list of calls as text, byte by byte, and what each line prints.
#![tactic(auto)]

pub mod feed;
mod fitting;
