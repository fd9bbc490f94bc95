// U12: exam questions. How many lists of reads have each number of hits.
#![tactic(auto)]

pub mod content;
pub mod search;

ghost use Rattle.std.specs.Prelude.{◌≡◌, ◌*◌, ◌≤◌, length};
ghost use Rattle.paper.specs.Engine.{fingerprinting};
ghost use Rattle.paper.specs.Lent.{split, with_label};
ghost use Rattle.paper.specs.Machines.{content_of};
ghost use Rattle.parts.specs.Rep.{numbers_of};
ghost use Rattle.exam.specs.Scores as Paper;
ghost use Rattle.exam.specs.Small.{empty};
ghost use Rattle.exam.specs.Contract.{counts_bytes, wrong_lent, too_large, question_refusal, question, told};
ghost use Rattle.refusal.specs.Numbers.{number_of};

use parts::BoxRecord;
use refusal::Refusal;
use search::{Question, State};

// The bytes that are lent for the nine counts.
pub const COUNTS: usize = 72;

// Refusal 2: the length of the label, of the disk or of what is lent for the counts isn't right.
#[tactic(auto, unfolding(crate::specs::Contract::wrong_lent))]
pub(crate) fn lengths_wrong(b: BoxRecord, label: &[u8], disk: &[u8], room: usize) -> bool
    requires { (b.size ≤ 4096) × (b.blocks ≤ 65536) }
    ensures { result ≡ wrong_lent (with_label (numbers_of b) label.now) disk.now room }
{
    if disk.len() != b.blocks * b.size {
        return true;
    }
    if label.len() != 64 {
        return true;
    }
    room != COUNTS
}

// Refusal 17: more than the search is for.
#[tactic(auto, unfolding(crate::specs::Contract::too_large))]
pub(crate) fn too_large(b: BoxRecord, k: usize) -> bool
    ensures { result ≡ too_large (numbers_of b) k }
{
    if 4 < b.blocks {
        return true;
    }
    if b.size != 64 {
        return true;
    }
    8 < k
}

// Refusals 1, 12, 2 and 17.
pub(crate) fn refusal(
    b: BoxRecord,
    label: &[u8],
    disk: &[u8],
    k: usize,
    room: usize,
) -> Result<(), Refusal>
    ensures { number_of result ≡ question_refusal (with_label (numbers_of b) label.now) disk.now k room }
{
    if refusals::numbers_unfit(b) {
        return Err(Refusal::Outside);
    }
    if refusals::limit_unfit(b) {
        return Err(Refusal::BadLimit);
    }
    if lengths_wrong(b, label, disk, room) {
        return Err(Refusal::WrongLength);
    }
    if too_large(b, k) {
        return Err(Refusal::TooLarge);
    }
    Ok(())
}

// No address held, no block cached.
pub(crate) fn fresh() -> State
    ensures { result ≡ empty }
{
    State {
        held: [4; 4],
        cached: [4; 4],
    }
}

// The counts, where nothing is refused.
pub(crate) fn counts(b: BoxRecord, disk: &[u8], k: usize) -> [u64; 9]
    requires { (b.blocks ≤ 4) × (1 ≤ b.rows) × (1 ≤ b.slots) × (length disk.now ≡ b.blocks * 64) × (k ≤ 8) }
    ensures { result ≡ Paper.scores (fingerprinting b.label 64).same b.rows b.slots
        (content_of (fingerprinting b.label 64) (split 64 b.blocks disk.now)) b.blocks k }
{
    let q = Question {
        blocks: b.blocks as u8,
        rows: b.rows,
        slots: b.slots,
        contents: content::contents(b, disk),
    };
    search::search(q, fresh(), k as u8)
}

// The nine counts that a question tells: zeros where it was refused.
pub fn told_counts(answer: &Result<[u64; 9], Refusal>) -> [u64; 9]
    ensures { result ≡ (told answer.now).counts }
{
    match answer {
        Ok(counts) => *counts,
        Err(_) => [0; 9],
    }
}

// How many lists of k reads have 0, 1, up to 8 hits, from a fresh D-LRU box of these numbers and this label over this disk.
// `room` is how many bytes are lent for the counts.
pub fn scores(
    size: usize,
    blocks: usize,
    rows: usize,
    slots: usize,
    limit: usize,
    label: &[u8],
    disk: &[u8],
    k: usize,
    room: usize,
) -> Result<[u64; 9], Refusal>
    ensures { told result
        ≡ question (record { B = size; P = blocks; m = rows; d = slots; label = label.now; t = limit }) disk.now k room }
{
    let b = parts::empty_box(size, blocks, rows, slots, limit, [0u8; 64]);
    refusal(b, label, disk, k, room)?;
    Ok(counts(open::with_label(b, label), disk, k))
}
