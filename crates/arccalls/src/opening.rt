// Opening: lent memory made a fresh D-ARC box.
ghost use Rattle.std.specs.Prelude.{◌≡◌, ◌*◌, length, Ok};
ghost use Rattle.tables.specs.Rows.{zeros};
ghost use Rattle.tables.specs.Records.{fresh_addresses, fresh_blocks};
ghost use Rattle.arc.specs.Arc.{m_of};
ghost use Rattle.refusals.specs.Given.{counters_of};
ghost use Rattle.arcrefusals.specs.Given.{sizes_of, arc_lent};
ghost use Rattle.arcrefusals.specs.Checks.{Fits};
ghost use Rattle.arccalls.specs.Contract.{empty_arc, relabelled, arc_begun, arc_opens};

use arclists::ListSizes;
use arcrefusals::{ArcRecord, arc_opening, base_of};
use counters::Counters;
use outcome::{Outcome, refused};
use refusal::Refusal;
use tables::fresh;

// "the record has their sizes and the number p": all 0 at first; with them C and X.
fn no_sizes(cached: usize, extra: usize) -> ListSizes
    ensures { result ≡ record { t1 = 0; t2 = 0; b1 = 0; b2 = 0; b3 = 0; p = 0; cached = cached; extra = extra } }
{
    ListSizes {
        t1: 0,
        t2: 0,
        b1: 0,
        b2: 0,
        b3: 0,
        p: 0,
        cached,
        extra,
    }
}

// The record of a box that holds none.
fn empty_arc(
    size: usize,
    blocks: usize,
    cached: usize,
    extra: usize,
    limit: usize,
    label: [u8; 64],
) -> ArcRecord
    ensures { result ≡ empty_arc size blocks cached extra limit label }
{
    ArcRecord {
        size,
        blocks,
        held: 0,
        label,
        limit,
        sizes: no_sizes(cached, extra),
    }
}

// An open box: the record with its label, and counters that have counted nothing.
fn opened(a: ArcRecord, label: &[u8]) -> Outcome<(), ArcRecord>
    requires { length label.now ≡ 64 }
    ensures { result ≡ record {
      answer = Ok tt;
      box_record = relabelled a label.now;
      counters = record { reads = 0; hits = 0; flash = 0; primary = 0 };
    } }
{
    let mut own = [0u8; 64];
    own.copy_from_slice(label);
    Outcome {
        answer: Ok(()),
        box_record: ArcRecord { label: own, ..a },
        counters: Counters {
            reads: 0,
            hits: 0,
            flash: 0,
            primary: 0,
        },
    }
}

// Fresh tables of 2 C + X and C rows, and the lists' m × 4 bytes all zero.
fn fresh_memory(a: ArcRecord, addresses: &mut [u8], table: &mut [u8], lists: &mut [u8])
    requires { Fits a addresses.old table.old lists.old }
    ensures addresses_after { addresses.new ≡ fresh_addresses (m_of (sizes_of a)) }
    ensures table_after { table.new ≡ fresh_blocks a.sizes.cached }
    ensures lists_after { lists.new ≡ zeros (m_of (sizes_of a) * 4) }
{
    let b = base_of(a);
    fresh::fresh_addresses(addresses, b.rows);
    fresh::fresh_blocks(table, b.slots);
    lists.fill(0);
}

// "Its own opening call takes C (cached blocks, its d) and X (extra addresses); its m is 2 × C + X.": the tables, the lists and the counters become fresh,
// flash and disk keep their bytes.
pub fn open(
    size: usize,
    blocks: usize,
    cached: usize,
    extra: usize,
    limit: usize,
    label: &[u8],
    disk: &[u8],
    flash: &[u8],
    addresses: &mut [u8],
    table: &mut [u8],
    lists: &mut [u8],
    c: Counters,
) -> Outcome<(), ArcRecord>
    ensures { arc_begun result disk.now flash.now addresses.new table.new lists.new
        ≡ arc_opens (empty_arc size blocks cached extra limit label.now)
        (arc_lent (empty_arc size blocks cached extra limit label.now) disk.now flash.now addresses.old
        table.old lists.old (counters_of c)) }
{
    let a = empty_arc(size, blocks, cached, extra, limit, [0u8; 64]);
    if let Err(r) = arc_opening(a, disk, flash, addresses, table, lists) {
        return refused(r, a, c);
    }
    if label.len() != 64 {
        return refused(Refusal::WrongLength, a, c);
    }
    fresh_memory(a, addresses, table, lists);
    opened(a, label)
}
