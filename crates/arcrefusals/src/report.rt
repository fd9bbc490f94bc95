// The refusals of a report of a D-ARC box: 11, 12, 2, 6, 7, 8, 13.
ghost use Rattle.std.specs.Prelude.{◌≡◌, List, ℕ, length};
ghost use Rattle.refusal.specs.Numbers.{number_of};
ghost use Rattle.paper.specs.Cache.{Counters};
ghost use Rattle.paper.specs.Reports.{Reader, width};
ghost use Rattle.arc.specs.ArcReports.{arc_report_refusal};
ghost use Rattle.arcrefusals.specs.Given.{sizes_of, arc_lent};

use crate::{ArcRecord, arc_opening, base_of, state};
use checks::index;
use refusal::Refusal;
use refusals::many;

// The refusal of a report with rows of `bytes` bytes, in a slice of `long` bytes: "no 3 and no 9".
pub fn arc_report(
    a: ArcRecord,
    bytes: usize,
    long: usize,
    disk: &[u8],
    flash: &[u8],
    addresses: &[u8],
    blocks: &[u8],
    lists: &[u8],
) -> Result<(), Refusal>
    ensures { (k : Counters) (w : Reader) (report : List ℕ) → bytes ≡ width w → long ≡ length report
        → number_of result ≡ arc_report_refusal (sizes_of a) (arc_lent a disk.now flash.now addresses.now blocks.now
        lists.now k) w report }
{
    arc_opening(a, disk, flash, addresses, blocks, lists)?;
    let b = base_of(a);
    if !many::product_is(b.rows, bytes, long) {
        return Err(Refusal::WrongLength);
    }
    let mut heads = [0u16; index::ENTRIES];
    state::arc_tables(a, addresses, blocks, lists, &mut heads)
}
