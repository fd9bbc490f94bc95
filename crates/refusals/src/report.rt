// The refusals of a report.
ghost use Rattle.std.specs.Prelude.{◌≡◌, List, ℕ, ◌≤◌, length};
ghost use Rattle.refusal.specs.Numbers.{number_of};
ghost use Rattle.paper.specs.Cache.{Counters};
ghost use Rattle.paper.specs.Reports.{Reader, width, report_refusal};
ghost use Rattle.parts.specs.Rep.{numbers_of};
ghost use Rattle.refusals.specs.Given.{lent};

use checks::index;
use parts::BoxRecord;
use refusal::Refusal;

// The refusal of a report with rows of `bytes` bytes, in a slice of `long` bytes.
pub fn of_report(
    b: BoxRecord,
    bytes: usize,
    long: usize,
    disk: &[u8],
    flash: &[u8],
    addresses: &[u8],
    blocks: &[u8],
) -> Result<(), Refusal>
    requires { bytes ≤ 7 }
    ensures { (k : Counters) (w : Reader) (report : List ℕ) → bytes ≡ width w → long ≡ length report
        → number_of result ≡ report_refusal (numbers_of b) (lent b disk.now flash.now addresses.now blocks.now k) w report }
{
    crate::of_opening(b, disk, flash, addresses, blocks)?;
    if long != b.rows * bytes {
        return Err(Refusal::WrongLength);
    }
    let mut heads = [0u16; index::ENTRIES];
    crate::of_tables(b, addresses, blocks, &mut heads)
}
