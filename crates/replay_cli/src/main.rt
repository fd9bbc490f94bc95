// Replays the list on standard input to standard output. No contract can name what the system reads and writes: these speak of the buffer that a read filled,
// with the count that it gave, and of the texts handed to the writes. `whole` says the run.
#![tactic(auto)]

ghost use Rattle.std.specs.Prelude.{◌≡◌, ◌&&◌, ◌≤◌, ltb, leb, length, take};
ghost use Rattle.io.specs.Counts.{IsPrefixLen};
ghost use Rattle.session.specs.Bytewise.{stage_number};
ghost use Rattle.session.specs.Memory.{memory, fed, ended, after_of};
ghost use Rattle.replay.specs.Pieces.{Ready};
ghost use Rattle.replay_cli.specs.Chunks.{first, fed_first, waiting};
ghost use Rattle.replay_cli.specs.Reads.{Ran, Replayed};

use replay::feed;
use session::{Fed, Session, Stage};
use std::io::{Error, Read, Write, writer};
use tables::row;

// The first bytes of the output.
fn text(out: &[u8], filled: usize) -> &[u8]
    requires { filled ≤ length out.now }
    ensures { result.now ≡ take filled out.now }
{
    &out[0..filled]
}

// Says on standard error what failed, and why in the system's words, without its number.
fn say(rt: &(impl Eprint + AllocGlobal), what: &str, why: &Error) {
    let _ = match format!(in rt.alloc(); "{why}") {
        Ok(text) => {
            let words = text.as_str();
            match words.split_once(" (os error ") {
                Some((reason, _)) => eprintln!(rt; "replay: {what}: {reason}"),
                None => eprintln!(rt; "replay: {what}: {words}"),
            }
        }
        Err(_) => eprintln!(rt; "replay: {what}"),
    };
}

// Writes a text, and says so where it cannot be written.
fn put(rt: &(impl Print + Eprint + AllocGlobal), text: &[u8]) {
    if let Err(why) = writer(rt).write_all(text) {
        say(rt, "the output cannot be written", &why);
    }
}

// Reads once, as many bytes as are there, and says so where the input cannot be read; that counts as its end.
fn take(rt: &(impl Input + Eprint + AllocGlobal), chunk: &mut [u8]) -> usize
    ensures { IsPrefixLen result chunk.new }
{
    match rt.reader().read(chunk) {
        Ok(n) => n,
        Err(why) => {
            say(rt, "the list cannot be read", &why);
            0
        }
    }
}

// Puts a text behind the `n` bytes that wait in the page. Where it has no room there, these are written first; a text longer than the page is written at once.
// How many bytes wait then.
fn collect(
    rt: &(impl Print + Eprint + AllocGlobal),
    page: &mut [u8],
    n: usize,
    text: &[u8],
) -> usize
    requires { n ≤ length page.old }
    ensures upper_bound { result ≤ length page.new }
    ensures page_after { take result page.new ≡ waiting (length page.old) (take n page.old) text.now }
{
    if text.len() <= page.len() - n {
        block::put(text, page, n);
        return n + text.len();
    }
    put(rt, &page[0..n]);
    if text.len() <= page.len() {
        block::put(text, page, 0);
        return text.len();
    }
    put(rt, text);
    0
}

// The bytes of a chunk of the input. Their texts are written in pages.
fn run(
    rt: &(impl Print + Eprint + AllocGlobal),
    chunk: &[u8],
    s: Session,
    line: &mut [u8],
    disk: &mut [u8],
    flash: &mut [u8],
    addresses: &mut [u8],
    blocks: &mut [u8],
    out: &mut [u8],
) -> Session
    ensures { memory result line.new disk.new flash.new addresses.new blocks.new out.new
        ≡ fed_first chunk.now (length chunk.now)
        (memory s line.old disk.old flash.old addresses.old blocks.old out.old) }
{
    let mut page = io::large_buffer();
    let mut n = 0;
    let mut t = s;
    for x in chunk {
        let f = feed::feed(*x, t, line, disk, flash, addresses, blocks, out);
        n = collect(rt, &mut page, n, text(out, f.filled));
        t = f.session;
    }
    put(rt, &page[0..n]);
    t
}

// What a turn took: how many bytes it read, and the session after them.
#[derive(Clone, Copy)]
struct Taken {
    count: usize,
    session: Session,
}

// Reads once, and replays the bytes that came: as many as the read counts, from the start of the buffer that it filled.
fn turn(
    rt: &(impl Input + Print + Eprint + AllocGlobal),
    s: Session,
    chunk: &mut [u8],
    line: &mut [u8],
    disk: &mut [u8],
    flash: &mut [u8],
    addresses: &mut [u8],
    blocks: &mut [u8],
    out: &mut [u8],
) -> Taken
    ensures count_in_bounds { result.count ≤ length chunk.new }
    ensures out_after { memory result.session
        line.new disk.new flash.new addresses.new blocks.new out.new
        ≡ fed_first chunk.new result.count
        (memory s line.old disk.old flash.old addresses.old blocks.old out.old) }
{
    let n = take(rt, chunk);
    let t = run(
        rt,
        &chunk[0..n],
        s,
        line,
        disk,
        flash,
        addresses,
        blocks,
        out,
    );
    Taken {
        count: n,
        session: t,
    }
}

// Whether a turn that read `n` bytes and left this stage is not the last. A list whose box line is refused ends there.
fn goes_on(n: usize, stage: Stage) -> bool
    ensures { result ≡ ltb 0 n && leb (stage_number stage) 1 }
{
    0 < n && stage != Stage::Over
}

// The end of the input. Its text is written.
fn last(
    rt: &(impl Print + Eprint + AllocGlobal),
    s: Session,
    line: &[u8],
    disk: &mut [u8],
    flash: &mut [u8],
    addresses: &mut [u8],
    blocks: &mut [u8],
    out: &mut [u8],
) -> Fed
    ensures { after_of result line.now disk.new flash.new addresses.new blocks.new out.new
        ≡ ended
        (memory s line.now disk.old flash.old addresses.old blocks.old out.old) }
{
    let f = feed::finish(s, line, disk, flash, addresses, blocks, out);
    put(rt, text(out, f.filled));
    f
}

// Replays the input to its end. A proved loop has to end, and nothing says that the input does, so the loop counts its turns up to a number
// that no run comes to.
fn all(
    rt: &(impl Input + Print + Eprint + AllocGlobal),
    chunk: &mut [u8],
    line: &mut [u8],
    disk: &mut [u8],
    flash: &mut [u8],
    addresses: &mut [u8],
    blocks: &mut [u8],
    out: &mut [u8],
) -> Session
    ensures { Ran (length chunk.old)
        (memory first line.old disk.old flash.old addresses.old blocks.old out.old)
        (memory result line.new disk.new flash.new addresses.new blocks.new out.new) }
{
    let mut s = feed::begin();
    for _turn in 0..u64::MAX {
        let t = turn(rt, s, chunk, line, disk, flash, addresses, blocks, out);
        s = t.session;
        if !goes_on(t.count, s.stage) {
            return s;
        }
    }
    s
}

// The whole run, in memory that is ready: the input to its end, and the end. The texts handed to the writes are the replay of the bytes read.
fn whole(
    rt: &(impl Input + Print + Eprint + AllocGlobal),
    chunk: &mut [u8],
    line: &mut [u8],
    disk: &mut [u8],
    flash: &mut [u8],
    addresses: &mut [u8],
    blocks: &mut [u8],
    out: &mut [u8],
) -> Fed
    requires { Ready (memory first line.old disk.old flash.old addresses.old blocks.old out.old) }
    ensures { Replayed (length chunk.old)
        (memory first line.old disk.old flash.old addresses.old blocks.old out.old)
        (after_of result line.new disk.new flash.new addresses.new blocks.new out.new) }
{
    let s = all(rt, chunk, line, disk, flash, addresses, blocks, out);
    last(rt, s, line, disk, flash, addresses, blocks, out)
}

// Nothing is required of the program: what `whole` requires is shown of the arrays that are made here.
fn main(rt: HostRuntime) {
    let mut chunk = [0u8; 4096];
    let mut line = [0u8; 33];
    let mut disk = [0u8; 16384];
    let mut flash = [0u8; 16384];
    let mut addresses = [0u8; 1024 * row::BYTES];
    let mut blocks = [0u8; 256 * row::BYTES];
    let mut out = [0u8; 256];
    whole(
        &rt,
        &mut chunk,
        &mut line,
        &mut disk,
        &mut flash,
        &mut addresses,
        &mut blocks,
        &mut out,
    );
}
