// The parts of a step: what it asks of the rows, and the blocks that it copies, on the bytes of a paper box.
#![tactic(auto)]

pub mod copy;
pub mod limit;
pub mod rows;

ghost use Rattle.std.specs.Prelude.{◌≡◌};
ghost use Rattle.parts.specs.Rep.{with_held, empty_box};

// The box record: the block size B, the disk's blocks P, the most addresses held m, the cached blocks d, the addresses held n, the office label, and
// the most dirty rows t.
#[derive(Clone, Copy)]
pub struct BoxRecord {
    pub size: usize,
    pub blocks: usize,
    pub rows: usize,
    pub slots: usize,
    pub held: usize,
    pub label: [u8; 64],
    pub limit: usize,
}

// The record with another number of addresses held.
pub fn with_held(b: BoxRecord, n: usize) -> BoxRecord
    ensures { result ≡ with_held b n }
{
    let mut c = b;
    c.held = n;
    c
}

// The record of a box of these numbers, this limit and this label that holds no address.
pub fn empty_box(
    size: usize,
    blocks: usize,
    rows: usize,
    slots: usize,
    limit: usize,
    label: [u8; 64],
) -> BoxRecord
    ensures { result ≡ empty_box size blocks rows slots limit label }
{
    BoxRecord {
        size: size,
        blocks: blocks,
        rows: rows,
        slots: slots,
        held: 0,
        label: label,
        limit: limit,
    }
}
