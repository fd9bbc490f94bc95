// What a line does, in the buffers that hold the box in their first bytes.
ghost use Rattle.std.specs.Prelude.{◌≡◌, ℕ, ◌≤◌, false, List, length};
ghost use Rattle.parts.specs.Rep.{numbers_of};
ghost use Rattle.refusals.specs.Given.{counters_of};
ghost use Rattle.policy.specs.Contract.{answer_of};
ghost use Rattle.answers.specs.Replay.{Opening, started, asked, doing};
ghost use Rattle.session.specs.Bytewise.{first_line, later_line};
ghost use Rattle.session.specs.Memory.{buffers, within, held, over, memory, Sized, Holds, state_in, stored, after_of};

use crate::{Fed, Session, Stage};
use answers::{boxes, call, start};
use counters::Counters;
use lines::Command;
use outcome::Outcome;
use parts::BoxRecord;
use policy::Answered;
use tables::row;

// Opens a box of fitting numbers.
fn open_box(
    b: BoxRecord,
    disk: &mut [u8],
    flash: &mut [u8],
    addresses: &mut [u8],
    blocks: &mut [u8],
) -> Outcome<(), BoxRecord>
    requires holds { Holds b }
    requires opening { Opening (numbers_of b) }
    requires sized { Sized disk.old flash.old addresses.old blocks.old }
    ensures box_record_value { numbers_of result.box_record ≡ numbers_of b }
    ensures blocks_after { held result.box_record.held (counters_of result.counters)
        (buffers disk.new flash.new addresses.new blocks.new)
        ≡ over (started (numbers_of b)) (buffers disk.old flash.old addresses.old blocks.old) }
{
    let p = b.blocks * b.size;
    let f = b.slots * b.size;
    let m = b.rows * row::BYTES;
    let d = b.slots * row::BYTES;
    start::start(
        b,
        &mut disk[0..p],
        &mut flash[0..f],
        &mut addresses[0..m],
        &mut blocks[0..d],
    )
}

// Makes the call of a line.
fn call_box(
    c: Option<Command>,
    b: BoxRecord,
    disk: &mut [u8],
    flash: &mut [u8],
    addresses: &mut [u8],
    blocks: &mut [u8],
    k: Counters,
) -> Outcome<Answered, BoxRecord>
    requires holds { Holds b }
    requires sized { Sized disk.old flash.old addresses.old blocks.old }
    ensures box_record_value { numbers_of result.box_record ≡ numbers_of b }
    ensures answer_value { answer_of result.answer ≡ (doing (numbers_of b) (within b
        (buffers disk.old flash.old addresses.old blocks.old) (counters_of k)) (asked (numbers_of b) c)).answer }
    ensures blocks_after { held result.box_record.held (counters_of result.counters)
        (buffers disk.new flash.new addresses.new blocks.new)
        ≡ over (doing (numbers_of b) (within b (buffers disk.old flash.old addresses.old blocks.old)
        (counters_of k)) (asked (numbers_of b) c)).lent (buffers disk.old flash.old addresses.old blocks.old) }
{
    let p = b.blocks * b.size;
    let f = b.slots * b.size;
    let m = b.rows * row::BYTES;
    let d = b.slots * row::BYTES;
    call::call(
        c,
        b,
        &mut disk[0..p],
        &mut flash[0..f],
        &mut addresses[0..m],
        &mut blocks[0..d],
        k,
    )
}

// Line 1: the box is opened, or the line refused and the replay over.
pub fn first(
    s: Session,
    c: Option<Command>,
    disk: &mut [u8],
    flash: &mut [u8],
    addresses: &mut [u8],
    blocks: &mut [u8],
    out: &mut [u8],
) -> Fed
    requires sized { Sized disk.old flash.old addresses.old blocks.old }
    requires out_len { length out.old ≡ 256 }
    ensures filled_bound { result.filled ≤ 92 }
    ensures by_index { (line : List ℕ) → after_of result line disk.new flash.new addresses.new blocks.new out.new
        ≡ stored (memory s line disk.old flash.old addresses.old blocks.old out.old)
        (first_line (state_in (memory s line disk.old flash.old addresses.old blocks.old
        out.old)) c) }
{
    if let Err(r) = boxes::box_refusal(c) {
        let filled = print::answer(out, 0, 0, c, Err(r));
        return Fed {
            session: Session {
                stage: Stage::Over,
                kept: 0,
                ..s
            },
            filled,
        };
    }
    let x = open_box(boxes::box_of(c), disk, flash, addresses, blocks);
    Fed {
        session: Session {
            stage: Stage::Open,
            kept: 0,
            number: 1,
            box_record: x.box_record,
            counters: x.counters,
        },
        filled: 0,
    }
}

// A later line.
pub fn later(
    s: Session,
    c: Option<Command>,
    disk: &mut [u8],
    flash: &mut [u8],
    addresses: &mut [u8],
    blocks: &mut [u8],
    out: &mut [u8],
) -> Fed
    requires holds { Holds s.box_record }
    requires sized { Sized disk.old flash.old addresses.old blocks.old }
    requires out_len { length out.old ≡ 256 }
    ensures filled_bound { result.filled ≤ 92 }
    ensures by_index { (line : List ℕ) → after_of result line disk.new flash.new addresses.new blocks.new out.new
        ≡ stored (memory s line disk.old flash.old addresses.old blocks.old out.old)
        (later_line (state_in (memory s line disk.old flash.old addresses.old blocks.old
        out.old)) c) }
{
    let x = call_box(c, s.box_record, disk, flash, addresses, blocks, s.counters);
    let filled = print::answer(out, 0, s.number, c, x.answer);
    Fed {
        session: Session {
            stage: Stage::Open,
            kept: 0,
            number: s.number.wrapping_add(1),
            box_record: x.box_record,
            counters: x.counters,
        },
        filled,
    }
}
