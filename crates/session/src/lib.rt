// A replay between two bytes of its input, and what a line does.
#![tactic(auto)]

pub mod line;

ghost use Rattle.std.specs.Prelude.{◌≡◌};
ghost use Rattle.session.specs.Bytewise.{stage_of};

use counters::Counters;
use parts::BoxRecord;

// Where a replay stands: before the box line has ended, while the box is open, and when nothing more is printed.
#[derive(Clone, Copy, PartialEq, Eq)]
pub enum Stage {
    Before,
    Open,
    Over,
}

// By the number of a stage: 0 before the box line, 1 while the box is open, and above that at the end.
impl From<u8> for Stage {
    ghost from_gives = { λ n s. s ≡ stage_of n };

    fn from(n: u8) -> Stage {
        match n {
            0 => Stage::Before,
            1 => Stage::Open,
            _ => Stage::Over,
        }
    }
}

// What is carried from byte to byte beside the lent buffers: the stage; how many bytes of the line are kept; the next call's number;
// the box record and the counters.
#[derive(Clone, Copy)]
pub struct Session {
    pub stage: Stage,
    pub kept: usize,
    pub number: u64,
    pub box_record: BoxRecord,
    pub counters: Counters,
}

// What a byte gives: the session after it, and how many bytes of text it put into the output.
#[derive(Clone, Copy)]
pub struct Fed {
    pub session: Session,
    pub filled: usize,
}
