// The box as a list begins with it.
ghost use Rattle.std.specs.Prelude.{◌≡◌, ◌*◌, ◌≤◌, length, replicate};
ghost use Rattle.parts.specs.Rep.{numbers_of};
ghost use Rattle.refusals.specs.Given.{counters_of, lent};
ghost use Rattle.answers.specs.Replay.{Opening, start_disk, started};
ghost use Rattle.tables.specs.Rows.{table_bytes};

use counters::Counters;
use outcome::Outcome;
use parts::BoxRecord;

// Fills a slice with one byte.
pub fn fill(s: &mut [u8], x: u8)
    ensures { s.new ≡ replicate (length s.old) x }
{
    s.fill(x);
}

// Fills block k of the disk with byte k.
fn fill_disk(disk: &mut [u8], size: usize, blocks: usize)
    requires { (size ≤ 4096) × (blocks ≤ 256) × (length disk.old ≡ blocks * size) }
    ensures { disk.new ≡ start_disk size blocks }
{
    for k in 0..blocks {
        let at = k * size;
        let end = at + size;
        // The contract has `k` below 256, so the cast keeps it; `u8::from` of a usize isn't there.
        fill(&mut disk[at..end], k as u8);
    }
}

// Opens a box of fitting numbers in slices of its lengths.
pub fn start(
    b: BoxRecord,
    disk: &mut [u8],
    flash: &mut [u8],
    addresses: &mut [u8],
    blocks: &mut [u8],
) -> Outcome<(), BoxRecord>
    requires size_bound { (b.size ≤ 4096) × (b.blocks ≤ 256) × Opening (numbers_of b) }
    requires disk_len { (length disk.old ≡ b.blocks * b.size) × (length flash.old ≡ b.slots * b.size) × (length addresses.old ≡ table_bytes b.rows)
        × (length blocks.old ≡ table_bytes b.slots) }
    ensures box_record_value { numbers_of result.box_record ≡ numbers_of b }
    ensures counters_after { lent result.box_record disk.new flash.new addresses.new blocks.new (counters_of result.counters)
        ≡ started (numbers_of b) }
{
    fill_disk(disk, b.size, b.blocks);
    fill(flash, 0);
    let none = Counters {
        reads: 0,
        hits: 0,
        flash: 0,
        primary: 0,
    };
    let label = b.label;
    open::open(
        b.size, b.blocks, b.rows, b.slots, b.limit, &label, disk, flash, addresses, blocks, none,
    )
}
