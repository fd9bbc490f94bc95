// The box of line 1. The casts are of u32, and std has no `From<u32>` for usize: `usize::from` isn't there.
ghost use Rattle.std.specs.Prelude.{◌≡◌, ◌≤◌};
ghost use Rattle.parts.specs.Rep.{numbers_of};
ghost use Rattle.refusal.specs.Numbers.{number_of};
ghost use Rattle.answers.specs.Replay.{box_refusal, box_numbers, large};
ghost use Rattle.answers.specs.Done.{record_of};

use lines::Command;
use parts::BoxRecord;
use refusal::Refusal;

// The box record of a box line, zeros of any other line.
pub fn box_of(c: Option<Command>) -> BoxRecord
    ensures { result ≡ record_of (box_numbers c) 0 }
{
    match c {
        Some(Command::Box(b, p, m, d)) => {
            parts::empty_box(
                b as usize, p as usize, m as usize, d as usize, m as usize, [0u8; 64],
            )
        }
        _ => parts::empty_box(0, 0, 0, 0, 0, [0u8; 64]),
    }
}

// Refuses a box that replay doesn't open.
#[tactic(auto, unfolding(crate::specs::Replay::large))]
pub fn too_large(b: BoxRecord) -> Result<(), Refusal>
    requires { (b.size ≤ 4294967295) × (b.blocks ≤ 4294967295) × (b.slots ≤ 4294967295) }
    ensures { number_of result ≡ large (numbers_of b) }
{
    if 256 < b.blocks {
        return Err(Refusal::BoxTooLarge);
    }
    if 16384 < b.blocks * b.size {
        return Err(Refusal::BoxTooLarge);
    }
    if 16384 < b.slots * b.size {
        return Err(Refusal::BoxTooLarge);
    }
    Ok(())
}

// Refuses a line 1 that opens no box.
#[tactic(auto, unfolding(crate::specs::Replay::box_refusal))]
pub fn box_refusal(c: Option<Command>) -> Result<(), Refusal>
    ensures { number_of result ≡ box_refusal c }
{
    let Some(line) = c else {
        return Err(Refusal::Unformed);
    };
    let Command::Box(b, p, m, d) = line else {
        return Err(Refusal::Unformed);
    };
    let x = parts::empty_box(
        b as usize, p as usize, m as usize, d as usize, m as usize, [0u8; 64],
    );
    if refusals::numbers_unfit(x) {
        return Err(Refusal::Outside);
    }
    too_large(x)
}
