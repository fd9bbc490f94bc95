// The call that a line asks for, in slices of the box's lengths.
ghost use Rattle.std.specs.Prelude.{◌≡◌, ◌≤◌, Some, Err, replicate};
ghost use Rattle.paper.specs.Lent.{Ask};
ghost use Rattle.parts.specs.Rep.{numbers_of};
ghost use Rattle.refusals.specs.Given.{counters_of, lent};
ghost use Rattle.policy.specs.Contract.{ask_of};
ghost use Rattle.refusal.specs.declared.Refusal.TheVariants.{Unformed};
ghost use Rattle.answers.specs.Replay.{asked, doing};
ghost use Rattle.answers.specs.Done.{done_of};

use counters::Counters;
use lines::Command;
use outcome::Outcome;
use parts::BoxRecord;
use policy::Answered;
use refusal::Refusal;
use serve::Write;
use tables::SourceAddress;

// Reads into a block of zeros.
fn read(
    b: BoxRecord,
    a: SourceAddress,
    disk: &mut [u8],
    flash: &mut [u8],
    addresses: &mut [u8],
    blocks: &mut [u8],
    c: Counters,
) -> Outcome<Answered, BoxRecord>
    requires { b.size ≤ 4096 }
    ensures box_record_value { numbers_of result.box_record ≡ numbers_of b }
    ensures blocks_after { done_of result disk.new flash.new addresses.new blocks.new
        ≡ doing (numbers_of b) (lent b disk.old flash.old addresses.old blocks.old (counters_of c))
        (Some (Ask.read a.0 (replicate b.size 0))) }
{
    let mut block = [0u8; 4096];
    let size = b.size;
    policy::calls::read(b, a, disk, flash, addresses, blocks, c, &mut block[0..size])
}

// Writes a block filled with `x`, by the kind of the write; a replay's writes carry the seat 0.
fn write(
    kind: Write,
    b: BoxRecord,
    a: SourceAddress,
    x: u8,
    disk: &mut [u8],
    flash: &mut [u8],
    addresses: &mut [u8],
    blocks: &mut [u8],
    c: Counters,
) -> Outcome<Answered, BoxRecord>
    requires { b.size ≤ 4096 }
    ensures box_record_value { numbers_of result.box_record ≡ numbers_of b }
    ensures blocks_after { done_of result disk.new flash.new addresses.new blocks.new
        ≡ doing (numbers_of b) (lent b disk.old flash.old addresses.old blocks.old (counters_of c))
        (Some (ask_of kind a.0 (replicate b.size x) 0)) }
{
    let block = [x; 4096];
    let size = b.size;
    policy::calls::write(
        kind,
        b,
        a,
        0,
        disk,
        flash,
        addresses,
        blocks,
        c,
        &block[0..size],
    )
}

// Looks at an address; nothing lent changes.
fn look(
    b: BoxRecord,
    a: SourceAddress,
    disk: &[u8],
    flash: &[u8],
    addresses: &[u8],
    blocks: &[u8],
    c: Counters,
) -> Outcome<Answered, BoxRecord>
    ensures box_record_value { numbers_of result.box_record ≡ numbers_of b }
    ensures blocks_value { done_of result disk.now flash.now addresses.now blocks.now
        ≡ doing (numbers_of b) (lent b disk.now flash.now addresses.now blocks.now (counters_of c))
        (Some (Ask.look a.0)) }
{
    Outcome {
        answer: look::look(b, a, disk, flash, addresses, blocks),
        box_record: b,
        counters: c,
    }
}

// A line that asks for no call: 4, and all as it was.
fn unformed(b: BoxRecord, c: Counters) -> Outcome<Answered, BoxRecord>
    ensures { result ≡ record { answer = Err Unformed; box_record = b; counters = c } }
{
    outcome::refused(Refusal::Unformed, b, c)
}

// The call of a line, of any form.
#[tactic(auto, unfolding(crate::specs::Replay::asked, crate::specs::Replay::doing))]
pub fn call(
    line: Option<Command>,
    b: BoxRecord,
    disk: &mut [u8],
    flash: &mut [u8],
    addresses: &mut [u8],
    blocks: &mut [u8],
    c: Counters,
) -> Outcome<Answered, BoxRecord>
    requires { b.size ≤ 4096 }
    ensures box_record_value { numbers_of result.box_record ≡ numbers_of b }
    ensures blocks_after { done_of result disk.new flash.new addresses.new blocks.new
        ≡ doing (numbers_of b) (lent b disk.old flash.old addresses.old blocks.old (counters_of c))
        (asked (numbers_of b) line) }
{
    match line {
        Some(Command::Read(a)) => read(b, SourceAddress(a), disk, flash, addresses, blocks, c),
        Some(Command::Look(a)) => look(b, SourceAddress(a), disk, flash, addresses, blocks, c),
        Some(Command::Flush) => policy::calls::flush(b, disk, flash, addresses, blocks, c),
        Some(Command::Through(a, x)) => write(
            Write::Through,
            b,
            SourceAddress(a),
            x,
            disk,
            flash,
            addresses,
            blocks,
            c,
        ),
        Some(Command::Back(a, x)) => write(
            Write::Back,
            b,
            SourceAddress(a),
            x,
            disk,
            flash,
            addresses,
            blocks,
            c,
        ),
        Some(Command::Invalidate(a, x)) => write(
            Write::Invalidate,
            b,
            SourceAddress(a),
            x,
            disk,
            flash,
            addresses,
            blocks,
            c,
        ),
        Some(Command::Box(_, _, _, _)) => unformed(b, c),
        None => unformed(b, c),
    }
}
