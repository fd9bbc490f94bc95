// Replay byte by byte: a byte of the input in, the text of the finished line out.
ghost use Rattle.std.specs.Prelude.{◌≡◌, cond, List, [], ℕ, ◌≤◌, eqb, length, replicate};
ghost use Rattle.parts.specs.Rep.{empty_box};
ghost use Rattle.refusals.specs.Given.{counters_of};
ghost use Rattle.print.specs.Put.{Put};
ghost use Rattle.print.specs.Texts.{counters_text};
ghost use Rattle.session.specs.Bytewise.{stage_number, end_line, keep, quiet, last_line};
ghost use Rattle.session.specs.declared.Stage.TheVariants.{Before};
ghost use Rattle.session.specs.Memory.{memory, Sized, Holds, fits, state_in, stored, fed, ended, after_of};

use crate::fitting;
use counters::Counters;
use session::{Fed, Session, Stage, line};

// A session before the first byte.
pub fn begin() -> Session
    ensures { result ≡ record {
      stage = Before;
      kept = 0;
      number = 0;
      box_record = empty_box 0 0 0 0 0 (replicate 64 0);
      counters = (record { reads = 0; hits = 0; flash = 0; primary = 0 });
    } }
{
    let b = parts::empty_box(0, 0, 0, 0, 0, [0u8; 64]);
    Session {
        stage: Stage::Before,
        kept: 0,
        number: 0,
        box_record: b,
        counters: Counters {
            reads: 0,
            hits: 0,
            flash: 0,
            primary: 0,
        },
    }
}

// Whether the session and its buffers fit.
fn fit(
    s: Session,
    line: &[u8],
    disk: &[u8],
    flash: &[u8],
    addresses: &[u8],
    blocks: &[u8],
    out: &[u8],
) -> bool
    ensures { result ≡ fits (memory s line.now disk.now flash.now addresses.now blocks.now
        out.now) }
{
    if !fitting::lengths_fit(
        line.len(),
        disk.len(),
        flash.len(),
        addresses.len(),
        blocks.len(),
        out.len(),
    ) {
        return false;
    }
    let b = s.box_record;
    if !fitting::numbers_fit(b) {
        return false;
    }
    s.kept <= 33
}

// The end of a line.
fn end_line(
    s: Session,
    line: &[u8],
    disk: &mut [u8],
    flash: &mut [u8],
    addresses: &mut [u8],
    blocks: &mut [u8],
    out: &mut [u8],
) -> Fed
    requires holds { Holds s.box_record }
    requires sized { Sized disk.old flash.old addresses.old blocks.old }
    requires out_len { (length out.old ≡ 256) × (length line.now ≡ 33) × (s.kept ≤ 33) }
    ensures filled_bound { result.filled ≤ 92 }
    ensures out_after { after_of result line.now disk.new flash.new addresses.new blocks.new out.new
        ≡ stored (memory s line.now disk.old flash.old addresses.old blocks.old out.old)
        (end_line (state_in (memory s line.now disk.old flash.old addresses.old blocks.old
        out.old))) }
{
    let kept = s.kept;
    let c = lines::parse::parse(&line[0..kept]);
    match s.stage {
        Stage::Before => line::first(s, c, disk, flash, addresses, blocks, out),
        Stage::Open => line::later(s, c, disk, flash, addresses, blocks, out),
        Stage::Over => Fed {
            session: s,
            filled: 0,
        },
    }
}

// Another byte of a line.
fn keep_byte(x: u8, s: Session, line: &mut [u8]) -> Session
    requires { (length line.old ≡ 33) × (s.kept ≤ 33) }
    ensures { (disk flash addresses blocks out : List ℕ) → after_of (record { session = result; filled = 0 })
        line.new disk flash addresses blocks out
        ≡ stored (memory s line.old disk flash addresses blocks out)
        (quiet (keep x (state_in (memory s line.old disk flash addresses blocks out)))) }
{
    let mut t = s;
    let kept = s.kept;
    if kept < 33 {
        line[kept] = x;
        t.kept = kept + 1;
    }
    t
}

// A byte of the input, in a session and buffers of any content and length.
pub fn feed(
    x: u8,
    s: Session,
    line: &mut [u8],
    disk: &mut [u8],
    flash: &mut [u8],
    addresses: &mut [u8],
    blocks: &mut [u8],
    out: &mut [u8],
) -> Fed
    ensures { after_of result line.new disk.new flash.new addresses.new blocks.new out.new
        ≡ fed x (memory s line.old disk.old flash.old addresses.old blocks.old out.old) }
{
    if !fit(s, line, disk, flash, addresses, blocks, out) {
        return Fed {
            session: s,
            filled: 0,
        };
    }
    if x == b'\n' {
        return end_line(s, line, disk, flash, addresses, blocks, out);
    }
    let t = keep_byte(x, s, line);
    Fed {
        session: t,
        filled: 0,
    }
}

// The line that the end of the input ends, if one has begun or none has ended.
fn last_line(
    s: Session,
    line: &[u8],
    disk: &mut [u8],
    flash: &mut [u8],
    addresses: &mut [u8],
    blocks: &mut [u8],
    out: &mut [u8],
) -> Fed
    requires holds { Holds s.box_record }
    requires sized { Sized disk.old flash.old addresses.old blocks.old }
    requires out_len { (length out.old ≡ 256) × (length line.now ≡ 33) × (s.kept ≤ 33) }
    ensures filled_bound { result.filled ≤ 92 }
    ensures out_after { after_of result line.now disk.new flash.new addresses.new blocks.new out.new
        ≡ stored (memory s line.now disk.old flash.old addresses.old blocks.old out.old)
        (last_line (state_in (memory s line.now disk.old flash.old addresses.old blocks.old
        out.old))) }
{
    if s.stage != Stage::Before && s.kept == 0 {
        return Fed {
            session: s,
            filled: 0,
        };
    }
    end_line(s, line, disk, flash, addresses, blocks, out)
}

// The counters after the last line, where the box is open.
fn last_counters(f: Fed, out: &mut [u8]) -> Fed
    requires { (f.filled ≤ 92) × (length out.old ≡ 256) }
    ensures session_value { result.session ≡ f.session }
    ensures put { Put f.filled (cond (eqb (stage_number f.session.stage) 1) (counters_text (counters_of f.session.counters)) []) out.old result.filled
        out.new }
{
    let s = f.session;
    if s.stage != Stage::Open {
        return f;
    }
    let c = s.counters;
    let filled = print::counters(out, f.filled, c);
    Fed {
        session: s,
        filled: filled,
    }
}

// The end of the input, in a session and buffers of any content and length.
pub fn finish(
    s: Session,
    line: &[u8],
    disk: &mut [u8],
    flash: &mut [u8],
    addresses: &mut [u8],
    blocks: &mut [u8],
    out: &mut [u8],
) -> Fed
    ensures { after_of result line.now disk.new flash.new addresses.new blocks.new out.new
        ≡ ended (memory s line.now disk.old flash.old addresses.old blocks.old out.old) }
{
    if !fit(s, line, disk, flash, addresses, blocks, out) {
        return Fed {
            session: s,
            filled: 0,
        };
    }
    let f = last_line(s, line, disk, flash, addresses, blocks, out);
    last_counters(f, out)
}
