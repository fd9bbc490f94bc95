// What a line prints, put into the output. Each function gives the index after its text.
// The output and the index stay two parameters: fixed memory, lent by the caller.
#![tactic(auto)]

ghost use Rattle.std.specs.Prelude.{◌++◌, ◌+◌, ◌≤◌, length};
ghost use Rattle.lines.specs.Text.{ascii, decimal as decimal_of};
ghost use Rattle.refusals.specs.Given.{counters_of};
ghost use Rattle.policy.specs.Contract.{answer_of, word_of};
ghost use Rattle.refusal.specs.Numbers.{code};
ghost use Rattle.print.specs.Put.{Put};
ghost use Rattle.print.specs.Texts.{ask_text, word_text, counts_text, answer_text, counters_text};

use counters::Counters;
use lines::Command;
use policy::{Answered, Word};
use refusal::Refusal;

// A text.
pub fn text(out: &mut [u8], at: usize, s: &[u8]) -> usize
    requires { at + length s.now ≤ length out.old }
    ensures { Put at s.now out.old result out.new }
{
    block::put(s, out, at);
    at + s.len()
}

// A number in decimal.
pub fn decimal(out: &mut [u8], at: usize, n: u64) -> usize
    requires { at + 20 ≤ length out.old }
    ensures upper_bound { result ≤ at + 20 }
    ensures put { Put at (decimal_of n) out.old result out.new }
{
    let mut digits = [0u8; 20];
    let k = io::decimal(n, &mut digits);
    text(out, at, &digits[0..k])
}

// A text and a number.
fn named(out: &mut [u8], at: usize, s: &[u8], n: u64) -> usize
    requires { at + length s.now + 20 ≤ length out.old }
    ensures upper_bound { result ≤ at + length s.now + 20 }
    ensures put { Put at (s.now ++ decimal_of n) out.old result out.new }
{
    let next = text(out, at, s);
    decimal(out, next, n)
}

// The letter and the address of a call.
#[tactic(auto, unfolding(crate::specs::Texts::ask_text))]
fn ask(out: &mut [u8], at: usize, c: Option<Command>) -> usize
    requires { at + 23 ≤ length out.old }
    ensures upper_bound { result ≤ at + 23 }
    ensures put { Put at (ask_text c) out.old result out.new }
{
    match c {
        Some(Command::Read(a)) => named(out, at, b" R ", a as u64),
        Some(Command::Look(a)) => named(out, at, b" L ", a as u64),
        Some(Command::Flush) => text(out, at, b" F -"),
        Some(Command::Through(a, _)) => named(out, at, b" T ", a as u64),
        Some(Command::Back(a, _)) => named(out, at, b" B ", a as u64),
        Some(Command::Invalidate(a, _)) => named(out, at, b" I ", a as u64),
        Some(Command::Box(_, _, _, _)) => text(out, at, b""),
        None => text(out, at, b""),
    }
}

// The word of an answer.
#[tactic(auto, unfolding(crate::specs::Texts::word_text))]
fn word(out: &mut [u8], at: usize, w: Word) -> usize
    requires { at + 7 ≤ length out.old }
    ensures upper_bound { result ≤ at + 7 }
    ensures put { Put at (word_text (word_of w)) out.old result out.new }
{
    match w {
        Word::Hit => text(out, at, b" hit "),
        Word::Miss => text(out, at, b" miss "),
        Word::Same => text(out, at, b" same "),
        Word::New => text(out, at, b" new "),
        Word::Cache => text(out, at, b" cache "),
        Word::Disk => text(out, at, b" disk "),
        Word::Done => text(out, at, b" done "),
    }
}

// The two counts at the end of a line.
fn counts(out: &mut [u8], at: usize, flashed: u64, primary: u64) -> usize
    requires { at + 42 ≤ length out.old }
    ensures upper_bound { result ≤ at + 42 }
    ensures put { Put at (counts_text flashed primary) out.old result out.new }
{
    let a = decimal(out, at, flashed);
    let b = named(out, a, b" ", primary);
    text(out, b, b"\n")
}

// A refused line.
fn refused(out: &mut [u8], at: usize, number: u64, r: Refusal) -> usize
    requires { at + 50 ≤ length out.old }
    ensures upper_bound { result ≤ at + 50 }
    ensures put { Put at (decimal_of number ++ (ascii " refused " ++ decimal_of (code r)) ++ ascii "\n") out.old result out.new }
{
    let a = decimal(out, at, number);
    let b = named(out, a, b" refused ", u32::from(r) as u64);
    text(out, b, b"\n")
}

// An answered line.
fn answered(out: &mut [u8], at: usize, number: u64, c: Option<Command>, a: Answered) -> usize
    requires { at + 92 ≤ length out.old }
    ensures upper_bound { result ≤ at + 92 }
    ensures put { Put at (decimal_of number ++ ask_text c ++ word_text (word_of a.word) ++ counts_text a.flashed a.primary) out.old result out.new }
{
    let i = decimal(out, at, number);
    let j = ask(out, i, c);
    let k = word(out, j, a.word);
    counts(out, k, a.flashed as u64, a.primary as u64)
}

// The line of an answer.
#[tactic(auto, unfolding(crate::specs::Texts::answer_text))]
pub fn answer(
    out: &mut [u8],
    at: usize,
    number: u64,
    c: Option<Command>,
    a: Result<Answered, Refusal>,
) -> usize
    requires { at + 92 ≤ length out.old }
    ensures upper_bound { result ≤ at + 92 }
    ensures put { Put at (answer_text number c (answer_of a)) out.old result out.new }
{
    match a {
        Err(r) => refused(out, at, number, r),
        Ok(x) => answered(out, at, number, c, x),
    }
}

// The line of the counters.
pub fn counters(out: &mut [u8], at: usize, c: Counters) -> usize
    requires { at + 109 ≤ length out.old }
    ensures upper_bound { result ≤ at + 109 }
    ensures put { Put at (counters_text (counters_of c)) out.old result out.new }
{
    let i = named(out, at, b"reads ", c.reads);
    let j = named(out, i, b" hits ", c.hits);
    let k = named(out, j, b" flash ", c.flash);
    let l = named(out, k, b" primary ", c.primary);
    text(out, l, b"\n")
}
