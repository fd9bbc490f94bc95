// Numbers in bytes: the fields of the state and of an answer.
#![tactic(auto)]

ghost use Rattle.std.specs.Prelude.{◌≡◌, ◌+◌, ◌*◌, ◌≤◌, ◌<◌, ◌^◌, length};
ghost use Rattle.refusal.specs.Numbers.{number_of};
ghost use Rattle.refusals.specs.Given.{counters_of};
ghost use Rattle.policy.specs.Contract.{word_of, answer_of, many_answer_of};
ghost use Rattle.look.specs.Look.{numbered};
ghost use Rattle.block.specs.Blocks.{part, splice};
ghost use Rattle.tables.specs.Rows.{le8};
ghost use Rattle.fields.specs.Fields.{low_bytes, state_bytes, record_in, counters_in, put8, put_state, put_label, put_record};
ghost use Rattle.fields.specs.Fields.{put_answer, put_many, counts_after, word_number, fitting};
ghost use Rattle.fields.specs.Noted.{noted, noted_many, state_opened, start_of, noted_place};

use counters::Counters;
use look::Place;
use outcome::Outcome;
use parts::BoxRecord;
use policy::{Answered, Batch, Word};
use refusal::Refusal;
use tables::SourceAddress;

// The number in the eight bytes from index `at` on, little-endian.
pub fn get8(s: &[u8], at: usize) -> u64
    requires { at + 8 ≤ length s.now }
    ensures { result ≡ le8 s.now at }
{
    tables::row::word8(s, at)
}

// Writes the eight bytes of `v` from index `at` on, little-endian.
pub fn put8(s: &mut [u8], at: usize, v: u64)
    requires { at + 8 ≤ length s.old }
    ensures { s.new ≡ splice at (low_bytes 8 v) s.old }
{
    block::put(&v.to_le_bytes(), s, at);
}

// The bytes of the state.
pub const STATE: usize = 144;

// Whether the state has its bytes and the answer `n`.
#[tactic(auto, unfolding(crate::specs::Fields::fitting))]
pub fn fit(n: usize, state: &[u8], answer: &[u8]) -> bool
    ensures { result ≡ fitting n state.now answer.now }
{
    state.len() == STATE && answer.len() == n
}

// The label in the state.
pub(crate) fn label_in(state: &[u8]) -> [u8; 64]
    requires { length state.now ≡ state_bytes }
    ensures { result ≡ part 72 64 state.now }
{
    let mut label = [0u8; 64];
    label.copy_from_slice(&state[72..136]);
    label
}

// The box record in the state.
#[tactic(auto, unfolding(crate::specs::Fields::get8))]
pub fn record_in(state: &[u8]) -> BoxRecord
    requires { length state.now ≡ state_bytes }
    ensures { result ≡ record_in state.now }
{
    BoxRecord {
        size: get8(state, 0) as usize,
        blocks: get8(state, 8) as usize,
        rows: get8(state, 16) as usize,
        slots: get8(state, 24) as usize,
        held: get8(state, 32) as usize,
        label: label_in(state),
        limit: get8(state, 136) as usize,
    }
}

// The counters in the state.
#[tactic(auto, unfolding(crate::specs::Fields::get8))]
pub fn counters_in(state: &[u8]) -> Counters
    requires { length state.now ≡ state_bytes }
    ensures { result ≡ counters_in state.now }
{
    Counters {
        reads: get8(state, 40),
        hits: get8(state, 48),
        flash: get8(state, 56),
        primary: get8(state, 64),
    }
}

// Writes n and the counters into the state.
#[tactic(auto, unfolding(crate::specs::Fields::put_state, crate::specs::Fields::put8))]
pub fn put_state(state: &mut [u8], held: usize, c: Counters)
    requires { length state.old ≡ state_bytes }
    ensures { state.new ≡ put_state held (counters_of c) state.old }
{
    put8(state, 32, held as u64);
    put8(state, 40, c.reads);
    put8(state, 48, c.hits);
    put8(state, 56, c.flash);
    put8(state, 64, c.primary);
}

// Writes an answer's three numbers.
#[tactic(auto, unfolding(crate::specs::Fields::put_answer, crate::specs::Fields::put8))]
pub fn put_answer(answer: &mut [u8], word: u64, second: usize, third: usize)
    requires { length answer.old ≡ 24 }
    ensures { answer.new ≡ put_answer word second third answer.old }
{
    put8(answer, 0, word);
    put8(answer, 8, second as u64);
    put8(answer, 16, third as u64);
}

// Writes the four numbers of a folder read's answer.
#[tactic(auto, unfolding(crate::specs::Fields::put_many, crate::specs::Fields::put8))]
pub fn put_many(answer: &mut [u8], hits: usize, flash: usize, primary: usize, fetches: usize)
    requires { length answer.old ≡ 32 }
    ensures { answer.new ≡ put_many hits flash primary fetches answer.old }
{
    put8(answer, 0, hits as u64);
    put8(answer, 8, flash as u64);
    put8(answer, 16, primary as u64);
    put8(answer, 24, fetches as u64);
}

// Writes the nine counts of an exam question into what is lent for them; where that has another length, nothing.
pub fn put_counts(s: &mut [u8], c: [u64; 9])
    ensures { s.new ≡ counts_after c s.old }
{
    if s.len() != exam::COUNTS {
        return;
    }
    for h in 0..9 {
        put8(s, h * 8, c[h]);
    }
}

// The number of a word.
pub fn word_number(w: Word) -> u64
    ensures { result ≡ word_number (word_of w) }
{
    match w {
        Word::Hit => 1,
        Word::Miss => 2,
        Word::Same => 3,
        Word::New => 4,
        Word::Cache => 5,
        Word::Disk => 6,
        Word::Done => 7,
    }
}

// Writes what a call tells into the state and the answer. The number of the refusal, 0 where the call was served.
pub fn write_outcome(state: &mut [u8], answer: &mut [u8], o: Outcome<Answered, BoxRecord>) -> u32
    requires { (length state.old ≡ state_bytes) × (length answer.old ≡ 24) }
    ensures { record { number = result; state = state.new; answer = answer.new }
        ≡ noted (answer_of o.answer) o.box_record.held (counters_of o.counters) state.old answer.old }
{
    let b = o.box_record;
    match o.answer {
        Err(r) => u32::from(r),
        Ok(a) => {
            put_state(state, b.held, o.counters);
            put_answer(answer, word_number(a.word), a.flashed, a.primary);
            0
        }
    }
}

// The same of a folder read.
pub fn write_many(state: &mut [u8], answer: &mut [u8], o: Outcome<Batch, BoxRecord>) -> u32
    requires { (length state.old ≡ state_bytes) × (length answer.old ≡ 32) }
    ensures { record { number = result; state = state.new; answer = answer.new }
        ≡ noted_many (many_answer_of o.answer) o.box_record.held (counters_of o.counters) state.old answer.old }
{
    let b = o.box_record;
    match o.answer {
        Err(r) => u32::from(r),
        Ok(a) => {
            put_state(state, b.held, o.counters);
            put_many(answer, a.hits, a.flashed, a.primary, a.fetches);
            0
        }
    }
}

// Writes a label into the state.
#[tactic(auto, unfolding(crate::specs::Fields::put_label))]
pub(crate) fn put_label(state: &mut [u8], label: [u8; 64])
    requires { length state.old ≡ state_bytes }
    ensures { state.new ≡ put_label label state.old }
{
    block::put(&label, state, 72);
}

// Writes the box record into the state; the counters stay.
#[tactic(auto, unfolding(crate::specs::Fields::put_record, crate::specs::Fields::put_label, crate::specs::Fields::put8))]
pub fn put_record(state: &mut [u8], b: BoxRecord)
    requires { length state.old ≡ state_bytes }
    ensures { state.new ≡ put_record b state.old }
{
    put8(state, 0, b.size as u64);
    put8(state, 8, b.blocks as u64);
    put8(state, 16, b.rows as u64);
    put8(state, 24, b.slots as u64);
    put8(state, 32, b.held as u64);
    put_label(state, b.label);
    put8(state, 136, b.limit as u64);
}

// Writes what an opening tells into the state: n and the label, and the counters where it was served. The number of the refusal, 0 where the box is open.
pub fn write_opening(state: &mut [u8], o: Outcome<(), BoxRecord>) -> u32
    requires { length state.old ≡ state_bytes }
    ensures { (result ≡ number_of o.answer) × (state.new ≡ state_opened (number_of o.answer) o.box_record.held
        (counters_of o.counters) o.box_record.label state.old) }
{
    let b = o.box_record;
    match o.answer {
        Ok(()) => put_state(state, b.held, o.counters),
        Err(_) => put8(state, 32, b.held as u64),
    }
    put_label(state, b.label);
    refusal::number(&o.answer)
}

// Writes the place of a look's part into the answer. The number of the refusal, 0 where the look was served.
pub fn write_place(
    answer: &mut [u8],
    size: usize,
    address: SourceAddress,
    p: Result<Place, Refusal>,
) -> u32
    requires { (length answer.old ≡ 24) × (start_of size address.0 (numbered p) < 2 ^ 64) }
    ensures { record { number = result; answer = answer.new } ≡ noted_place size address.0 answer.old (numbered p) }
{
    match p {
        Err(r) => u32::from(r),
        Ok(Place::Flash(s)) => {
            put_answer(answer, 5, s.0 as usize * size, size);
            0
        }
        Ok(Place::Disk) => {
            put_answer(answer, 6, address.0 as usize * size, size);
            0
        }
    }
}
