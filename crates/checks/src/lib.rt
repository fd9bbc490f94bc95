// The checks for 6, 7 and 8, and the index of the block rows behind them.
#![tactic(auto)]

pub mod index;
pub mod known;
pub mod sound;
