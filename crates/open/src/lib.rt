// Opening: lent memory made a fresh box.
#![tactic(auto)]

ghost use Rattle.std.specs.Prelude.{◌≡◌, length};
ghost use Rattle.parts.specs.Rep.{empty_box, relabelled};
ghost use Rattle.refusals.specs.Given.{counters_of};
ghost use Rattle.open.specs.Contract.{begun, opens};

use counters::Counters;
use outcome::{Outcome, refused};
use parts::BoxRecord;
use refusal::Refusal;

// Counters that have counted nothing.
pub(crate) fn no_counts() -> Counters
    ensures { result ≡ record { reads = 0; hits = 0; flash = 0; primary = 0 } }
{
    Counters {
        reads: 0,
        hits: 0,
        flash: 0,
        primary: 0,
    }
}

// The record with the label `label`.
pub fn with_label(b: BoxRecord, label: &[u8]) -> BoxRecord
    requires { length label.now ≡ 64 }
    ensures { result ≡ relabelled b label.now }
{
    let mut own = [0u8; 64];
    own.copy_from_slice(label);
    let mut r = b;
    r.label = own;
    r
}

// Opens a box of these numbers, this limit and this label over lent memory: the tables and the counters become fresh, flash and disk keep their bytes.
pub fn open(
    size: usize,
    blocks: usize,
    rows: usize,
    slots: usize,
    limit: usize,
    label: &[u8],
    disk: &[u8],
    flash: &[u8],
    addresses: &mut [u8],
    table: &mut [u8],
    c: Counters,
) -> Outcome<(), BoxRecord>
    ensures { begun result disk.now flash.now addresses.new table.new
        ≡ opens (empty_box size blocks rows slots limit label.now) disk.now flash.now
        addresses.old table.old (counters_of c) }
{
    let b = parts::empty_box(size, blocks, rows, slots, limit, [0u8; 64]);
    if let Err(r) = refusals::of_opening(b, disk, flash, addresses, table) {
        return refused(r, b, c);
    }
    if label.len() != 64 {
        return refused(Refusal::WrongLength, b, c);
    }
    tables::fresh::fresh_addresses(addresses, rows);
    tables::fresh::fresh_blocks(table, slots);
    Outcome {
        answer: Ok(()),
        box_record: with_label(b, label),
        counters: no_counts(),
    }
}
