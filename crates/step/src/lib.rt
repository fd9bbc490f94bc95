// The step of a request, on the bytes of a paper box.
#![tactic(auto)]

pub mod steps;
