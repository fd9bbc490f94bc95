// The calls of a D-ARC box that don't make its step: opening, flush and look, on lent bytes.
#![tactic(auto)]

pub mod flushes;
pub mod looks;
pub mod opening;

ghost use Rattle.std.specs.Prelude.{◌≡◌};
ghost use Rattle.arccalls.specs.Contract.{with_held};

use arcrefusals::ArcRecord;
use outcome::Outcome;
use parts::BoxRecord;
use policy::Answered;

// What the base's call gives back, for the D-ARC box: the lists' sizes, p, C and X stay.
fn answered(a: ArcRecord, o: Outcome<Answered, BoxRecord>) -> Outcome<Answered, ArcRecord>
    ensures { result ≡ record { answer = o.answer; box_record = with_held a o.box_record.held; counters = o.counters } }
{
    let b = o.box_record;
    Outcome {
        answer: o.answer,
        box_record: ArcRecord { held: b.held, ..a },
        counters: o.counters,
    }
}
