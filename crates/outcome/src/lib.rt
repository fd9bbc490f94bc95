// What a call gives back.
#![tactic(auto)]

ghost use Rattle.std.specs.Prelude.{◌≡◌, Err};

use counters::Counters;
use refusal::Refusal;

// The answer of a call or its refusal, the record of its box and the counters after it.
#[derive(Clone, Copy)]
pub struct Outcome<A, B> {
    pub answer: Result<A, Refusal>,
    pub box_record: B,
    pub counters: Counters,
}

// A refused call: the record and the counters as given.
pub fn refused<A, B>(refusal: Refusal, box_record: B, counters: Counters) -> Outcome<A, B>
    ensures { result ≡ record { answer = Err refusal; box_record = box_record; counters = counters } }
{
    Outcome {
        answer: Err(refusal),
        box_record,
        counters,
    }
}
