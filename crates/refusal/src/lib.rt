// Why a call is refused: each reason has one number, and the C interface gives the number.
#![tactic(auto)]

ghost use Rattle.std.specs.Prelude.{◌≡◌};
ghost use Rattle.refusal.specs.Numbers.{code, number_of};

// The refusals, in the order of their numbers. docs/FORMATS.md says where each is met.
#[derive(Clone, Copy, PartialEq, Eq, Debug)]
pub enum Refusal {
    // 1: B, P, m or d is outside its set.
    Outside,
    // 2: a length is not the one that is asked for.
    WrongLength,
    // 3: an address is P or more.
    NoAddress,
    // 4: a line is not of the form.
    Unformed,
    // 5: a box is more than a replay takes.
    BoxTooLarge,
    // 6: the address table is unsound.
    BadAddresses,
    // 7: the block table is unsound.
    BadBlocks,
    // 8: a dirty address is without its block.
    DirtyUncached,
    // 9: a counter is above 2 to the power 63.
    CounterFull,
    // 10: a list of addresses is empty, or has more than 64.
    BadCount,
    // 11: B, P, C or X of a D-ARC box is outside its set.
    ArcOutside,
    // 12: the limit is not 1 to m.
    BadLimit,
    // 13: more addresses are dirty than the limit.
    TooDirty,
    // 14: the area is too short.
    NoRoom,
    // 15: the area has no image of version 1.
    NoImage,
    // 16: the body of the image is no box.
    BadImage,
    // 17: the exam question is too large.
    TooLarge,
}

impl From<Refusal> for u32 {
    ghost from_gives = { λ r n. n ≡ code r };

    fn from(r: Refusal) -> u32 {
        match r {
            Refusal::Outside => 1,
            Refusal::WrongLength => 2,
            Refusal::NoAddress => 3,
            Refusal::Unformed => 4,
            Refusal::BoxTooLarge => 5,
            Refusal::BadAddresses => 6,
            Refusal::BadBlocks => 7,
            Refusal::DirtyUncached => 8,
            Refusal::CounterFull => 9,
            Refusal::BadCount => 10,
            Refusal::ArcOutside => 11,
            Refusal::BadLimit => 12,
            Refusal::TooDirty => 13,
            Refusal::NoRoom => 14,
            Refusal::NoImage => 15,
            Refusal::BadImage => 16,
            Refusal::TooLarge => 17,
        }
    }
}

// The number of a refusal, 0 where nothing is refused: what the C interface gives.
pub fn number<T: Drop>(answer: &Result<T, Refusal>) -> u32
    ensures { result ≡ number_of answer.now }
{
    match answer {
        Ok(_) => 0,
        Err(r) => u32::from(*r),
    }
}
