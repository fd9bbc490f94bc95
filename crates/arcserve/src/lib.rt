// The calls of a D-ARC box that make its step, not refused, on the bytes of a paper box and its lists.
#![tactic(auto)]

pub mod reads;
pub mod writes;

use arcstep::Running;

// What a served call tells: whether its word is the first of its two, and what runs on, its flash and primary writes with it.
#[derive(Clone, Copy)]
pub struct ArcServed {
    pub yes: bool,
    pub running: Running,
}
