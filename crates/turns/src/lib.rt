// The reads of a folder, one after the other, on the bytes of a paper box: each into its own place of the buffer.
#![tactic(auto)]

pub mod read;

ghost use Rattle.std.specs.Prelude.{◌≡◌, not, cond, ◌&&◌, List, [], ◌∷◌, ◌++◌, ℕ, ◌+◌, ◌*◌, ◌<◌, ◌≤◌, eqb, ltb, length, get_or, take};
ghost use Rattle.block.specs.Blocks.{part, splice};
ghost use Rattle.paper.specs.Cache.{Box, Counters};
ghost use Rattle.paper.specs.Engine.{Fixed};
ghost use Rattle.paper.specs.Index.{index_where};
ghost use Rattle.paper.specs.Batch.{Batched, start, batch_read, batch};
ghost use Rattle.paper.specs.CallLaws.{Fits};
ghost use Rattle.parts.specs.Rep.{numbers_of, Rep, engine};
ghost use Rattle.step.specs.Steps.{Sure};
ghost use Rattle.serve.specs.Calls.{LentSound};
ghost use Rattle.turns.specs.Turns.{Turned, Lends};

use parts::BoxRecord;
use serve::Served;
use tables::{SourceAddress, moves};

// What the reads so far have told: the rows held, and the sums of their hits, flash writes, primary writes and fetches.
#[derive(Clone, Copy)]
pub struct Sums {
    pub held: usize,
    pub hits: usize,
    pub flashed: usize,
    pub primary: usize,
    pub fetches: usize,
}

// The sums with those of one read more. A fetch is the first read of an address, where it is a miss.
pub(crate) fn summed(t: Sums, s: Served, first: bool) -> Sums
    requires { (t.hits ≤ 64) × (t.flashed ≤ 64) × (t.primary ≤ 65664) × (t.fetches ≤ 64) × (s.flashed ≤ 1) × (s.primary ≤ 1026) }
    ensures { result ≡ record {
      held = s.held;
      hits = t.hits + cond s.yes 1 0;
      flashed = t.flashed + s.flashed;
      primary = t.primary + s.primary;
      fetches = t.fetches + cond (first && not s.yes) 1 0;
    } }
{
    let fetch = usize::from(first && !s.yes);
    Sums {
        held: s.held,
        hits: t.hits + usize::from(s.yes),
        flashed: t.flashed + s.flashed,
        primary: t.primary + s.primary,
        fetches: t.fetches + fetch,
    }
}

// The index of the first of the addresses that is the one at `k`.
pub(crate) fn first_of(asked: &[u32], k: usize) -> usize
    requires { k < length asked.now }
    ensures { (result ≤ k) × (result ≡ index_where (λ x. eqb (get_or asked.now k 0) x) (take k asked.now)) }
{
    let a = asked[k];
    asked[..k].iter().position(|&x| a == x).unwrap_or(k)
}

// Where `i` is below `k`, block `i` of the buffer is written over its block `k`.
pub(crate) fn bring(buffer: &mut [u8], i: usize, k: usize, size: usize)
    requires { (k * size + size ≤ length buffer.old) × (k < 64) × (size ≤ 4096) }
    ensures { buffer.new
        ≡ cond (ltb i k) (splice (k * size) (part (i * size) size buffer.old) buffer.old) buffer.old }
{
    if i < k {
        moves::move_up(buffer, k * size, i * size, size);
    }
}

// One read into block `k` of the buffer.
pub(crate) fn land(
    b: BoxRecord,
    t: Sums,
    k: usize,
    a: SourceAddress,
    first: bool,
    disk: &mut [u8],
    flash: &mut [u8],
    addrs: &mut [u8],
    blocks: &mut [u8],
    buffer: &mut [u8],
) -> Sums
    requires fits { Fits (numbers_of b) × (a.0 < b.blocks) × (k < 64) × (k * b.size + b.size ≤ length buffer.old) }
    requires by_index { (l : List ℕ) × (z : Counters) × (T : Batched (Fixed 32) (Fixed b.size)) × (length l ≡ k)
        × Turned b l z T t disk.old flash.old addrs.old blocks.old buffer.old }
    ensures by_index_2 { (l : List ℕ) (z : Counters) (T : Batched (Fixed 32) (Fixed b.size)) → length l ≡ k
        → Turned b l z T t disk.old flash.old addrs.old blocks.old buffer.old
        → Lends b T a.0 first (part (k * b.size) b.size buffer.old)
        → Turned b (l ++ (a.0 ∷ [])) z (batch_read (engine b) (numbers_of b) T a.0) result disk.new flash.new addrs.new
        blocks.new buffer.new }
    ensures buffer_len_unchanged { length buffer.new ≡ length buffer.old }
{
    let mut c = b;
    c.held = t.held;
    let at = k * b.size;
    let end = at + b.size;
    let s = read::read_one(
        c,
        a,
        first,
        disk,
        flash,
        addrs,
        blocks,
        &mut buffer[at..end],
    );
    summed(t, s, first)
}

// The read at `k`.
pub(crate) fn turn(
    b: BoxRecord,
    t: Sums,
    k: usize,
    asked: &[u32],
    disk: &mut [u8],
    flash: &mut [u8],
    addrs: &mut [u8],
    blocks: &mut [u8],
    buffer: &mut [u8],
) -> Sums
    requires fits { Fits (numbers_of b) × (k < length asked.now) × (length asked.now ≤ 64) × (get_or asked.now k 0 < b.blocks)
        × (length buffer.old ≡ length asked.now * b.size) }
    requires turned { (z : Counters) × (T : Batched (Fixed 32) (Fixed b.size))
        × Turned b (take k asked.now) z T t disk.old flash.old addrs.old blocks.old buffer.old }
    ensures turned_2 { (z : Counters) (T : Batched (Fixed 32) (Fixed b.size))
        → Turned b (take k asked.now) z T t disk.old flash.old addrs.old blocks.old buffer.old
        → Turned b (take (k + 1) asked.now) z (batch_read (engine b) (numbers_of b) T (get_or asked.now k 0)) result disk.new
        flash.new addrs.new blocks.new buffer.new }
    ensures buffer_len_unchanged { length buffer.new ≡ length buffer.old }
{
    let a = SourceAddress(asked[k]);
    let i = first_of(asked, k);
    bring(buffer, i, k, b.size);
    land(b, t, k, a, k <= i, disk, flash, addrs, blocks, buffer)
}

// The reads of the list.
pub fn serve_many(
    b: BoxRecord,
    asked: &[u32],
    disk: &mut [u8],
    flash: &mut [u8],
    addrs: &mut [u8],
    blocks: &mut [u8],
    buffer: &mut [u8],
) -> Sums
    requires fits { Fits (numbers_of b) × (length asked.now ≤ 64) × (length buffer.old ≡ length asked.now * b.size)
        × ((k : ℕ) → k < length asked.now → get_or asked.now k 0 < b.blocks) }
    requires lent_sound { LentSound b disk.old flash.old addrs.old blocks.old }
    ensures turned { (s : Box (Fixed 32) (Fixed b.size)) (z : Counters)
        → Rep b disk.old flash.old addrs.old blocks.old s → Sure b s
        → Turned b asked.now z (batch (engine b) (numbers_of b) (start s z) asked.now) result disk.new flash.new
        addrs.new blocks.new buffer.new }
    ensures buffer_len_unchanged { length buffer.new ≡ length buffer.old }
{
    let mut t = Sums {
        held: b.held,
        hits: 0,
        flashed: 0,
        primary: 0,
        fetches: 0,
    };
    for k in 0..asked.len() {
        t = turn(b, t, k, asked, disk, flash, addrs, blocks, buffer);
    }
    t
}
