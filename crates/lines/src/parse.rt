// A line as a command.
ghost use Rattle.std.specs.Prelude.{◌≡◌, [], get_or};
ghost use Rattle.lines.specs.Lines.{words as words_of, of_one, of_two, of_three, of_five, parsed};

use crate::{Command, numbers, words};

// A line of one word.
fn one(line: &[u8]) -> Option<Command>
    ensures { result ≡ of_one (get_or (words_of line.now) 0 []) }
{
    if words::is(line, 0, b"F") {
        return Some(Command::Flush);
    }
    None
}

// A line of two words.
fn two(line: &[u8]) -> Option<Command>
    ensures { result ≡ of_two (get_or (words_of line.now) 0 []) (get_or (words_of line.now) 1 []) }
{
    let a = numbers::decimal_at(line, 1)?;
    if words::is(line, 0, b"R") {
        return Some(Command::Read(a));
    }
    if words::is(line, 0, b"L") {
        return Some(Command::Look(a));
    }
    None
}

// A line of three words.
fn three(line: &[u8]) -> Option<Command>
    ensures { result ≡ of_three (get_or (words_of line.now) 0 []) (get_or (words_of line.now) 1 [])
        (get_or (words_of line.now) 2 []) }
{
    let a = numbers::decimal_at(line, 1)?;
    let x = numbers::hexadecimal_at(line, 2)?;
    if words::is(line, 0, b"T") {
        return Some(Command::Through(a, x));
    }
    if words::is(line, 0, b"B") {
        return Some(Command::Back(a, x));
    }
    if words::is(line, 0, b"I") {
        return Some(Command::Invalidate(a, x));
    }
    None
}

// A line of five words.
fn five(line: &[u8]) -> Option<Command>
    ensures { result ≡ of_five (get_or (words_of line.now) 0 []) (get_or (words_of line.now) 1 []) (get_or (words_of line.now) 2 [])
        (get_or (words_of line.now) 3 []) (get_or (words_of line.now) 4 []) }
{
    if !words::is(line, 0, b"box") {
        return None;
    }
    let b = numbers::decimal_at(line, 1)?;
    let p = numbers::decimal_at(line, 2)?;
    let m = numbers::decimal_at(line, 3)?;
    let d = numbers::decimal_at(line, 4)?;
    Some(Command::Box(b, p, m, d))
}

// The command of a line, for any bytes.
pub fn parse(line: &[u8]) -> Option<Command>
    ensures { result ≡ parsed line.now }
{
    if 32 < line.len() {
        return None;
    }
    match words::count(line) {
        1 => one(line),
        2 => two(line),
        3 => three(line),
        5 => five(line),
        _ => None,
    }
}
