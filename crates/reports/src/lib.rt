// The reports of the held rows, for the manager and for the desk.
#![tactic(auto)]

ghost use Rattle.std.specs.Prelude.{◌≡◌, ◌*◌, ◌≤◌, length};
ghost use Rattle.refusal.specs.Numbers.{number_of};
ghost use Rattle.tables.specs.Rows.{table_bytes, HasRow};
ghost use Rattle.paper.specs.Cache.{Counters};
ghost use Rattle.paper.specs.Reports.{width};
ghost use Rattle.parts.specs.Rep.{numbers_of};
ghost use Rattle.refusals.specs.Given.{lent};
ghost use Rattle.reports.specs.Contract.{reader_of, reports};
ghost use Rattle.reports.specs.RowByRow.{row_in, rows_in};

use parts::{BoxRecord, rows};
use refusal::Refusal;
use tables::row;

// Whose report it is.
#[derive(Clone, Copy)]
pub enum Reader {
    Manager,
    Desk,
}

// The bytes of a row of a report.
pub fn width_of(reader: Reader) -> usize
    ensures value { result ≡ width (reader_of reader) }
    ensures upper_bound { result ≤ 7 }
{
    match reader {
        Reader::Manager => 7,
        Reader::Desk => 5,
    }
}

// Row `k` of the manager's report, zeros where it is none of the `n` held rows: address, dirty byte, seat.
pub(crate) fn row_bytes(addresses: &[u8], n: usize, k: usize) -> [u8; 7]
    requires { HasRow addresses.now k }
    ensures value { result ≡ row_in n addresses.now k }
    ensures result_len { length result ≡ 7 }
{
    if n <= k {
        return [0u8; 7];
    }
    let [a, b, c, d] = row::address_at(addresses, k).0.to_le_bytes();
    let [low, high] = row::seat_at(addresses, k).to_le_bytes();
    [a, b, c, d, rows::dirty_at(addresses, k), low, high]
}

// Fills the report of `m` rows, of which `n` are held, with the first `bytes` bytes of each.
pub fn fill(addresses: &[u8], m: usize, n: usize, bytes: usize, report: &mut [u8])
    requires { (m ≤ 1024) × (bytes ≤ 7) × (length addresses.now ≡ table_bytes m) × (length report.old ≡ m * bytes) }
    ensures { report.new ≡ rows_in bytes n addresses.now m }
{
    for k in 0..m {
        let r = row_bytes(addresses, n, k);
        block::put(&r[0..bytes], report, k * bytes);
    }
}

// The report of the held rows, oldest first. Nothing else is written.
pub fn report(
    reader: Reader,
    b: BoxRecord,
    disk: &[u8],
    flash: &[u8],
    addresses: &[u8],
    blocks: &[u8],
    report: &mut [u8],
) -> Result<(), Refusal>
    ensures { (k : Counters) → record { number = number_of result; report = report.new }
        ≡ reports (reader_of reader) (numbers_of b) (lent b disk.now flash.now addresses.now blocks.now k)
        report.old }
{
    let bytes = width_of(reader);
    refusals::report::of_report(b, bytes, report.len(), disk, flash, addresses, blocks)?;
    fill(addresses, b.rows, b.held, bytes, report);
    Ok(())
}
