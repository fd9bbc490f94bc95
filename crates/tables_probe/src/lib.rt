// The tables' functions under names that C and Rust can link, for tests/ and bench/ only. They take any bytes and any numbers: where what is
// given does not fit, they answer NONE (or true, the refusal) and change nothing.
#![tactic(auto)]

mod asked;
mod fit;
mod moves;
mod rows;
