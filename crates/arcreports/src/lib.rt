// The reports of the held rows of a D-ARC box, for the manager and for the desk.
#![tactic(auto)]

ghost use Rattle.std.specs.Prelude.{◌≡◌};
ghost use Rattle.refusal.specs.Numbers.{number_of};
ghost use Rattle.paper.specs.Cache.{Counters};
ghost use Rattle.reports.specs.Contract.{reader_of};
ghost use Rattle.arcrefusals.specs.Given.{sizes_of, arc_lent};
ghost use Rattle.arcreports.specs.Contract.{arc_reports};

use arcrefusals::{ArcRecord, base_of};
use refusal::Refusal;
use reports::Reader;

// The report of the held rows, oldest first. Nothing else is written.
pub fn report(
    reader: Reader,
    a: ArcRecord,
    disk: &[u8],
    flash: &[u8],
    addresses: &[u8],
    blocks: &[u8],
    lists: &[u8],
    report: &mut [u8],
) -> Result<(), Refusal>
    ensures { (k : Counters) → record { number = number_of result; report = report.new }
        ≡ arc_reports (reader_of reader) (sizes_of a) (arc_lent a disk.now flash.now addresses.now blocks.now
        lists.now k) report.old }
{
    let bytes = reports::width_of(reader);
    arcrefusals::report::arc_report(
        a,
        bytes,
        report.len(),
        disk,
        flash,
        addresses,
        blocks,
        lists,
    )?;
    let b = base_of(a);
    reports::fill(addresses, b.rows, b.held, bytes, report);
    Ok(())
}
