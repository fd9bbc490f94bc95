// The tests before a line is answered.
ghost use Rattle.std.specs.Prelude.{◌≡◌};
ghost use Rattle.session.specs.Memory.{lengths_fit, numbers_fit};

use parts::BoxRecord;
use tables::row;

// Whether the buffers have their lengths.
#[tactic(auto, unfolding(session::specs::Memory::lengths_fit))]
pub fn lengths_fit(
    line: usize,
    disk: usize,
    flash: usize,
    addresses: usize,
    blocks: usize,
    out: usize,
) -> bool
    ensures { result ≡ lengths_fit line disk flash addresses blocks out }
{
    line == 33
        && disk == 16384
        && flash == 16384
        && addresses == 1024 * row::BYTES
        && blocks == 256 * row::BYTES
        && out == 256
}

// Whether the buffers hold a box of these numbers.
#[tactic(auto, unfolding(session::specs::Memory::numbers_fit))]
pub fn numbers_fit(b: BoxRecord) -> bool
    ensures { result ≡ numbers_fit b }
{
    b.size <= 4096
        && b.blocks <= 256
        && b.rows <= 1024
        && b.slots <= 256
        && b.blocks * b.size <= 16384
        && b.slots * b.size <= 16384
}
