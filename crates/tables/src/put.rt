// Rows added and filled.
ghost use Rattle.std.specs.Prelude.{◌≡◌, ◌<◌, length};
ghost use Rattle.tables.specs.Rows.{table_bytes, HasRow, IsPrint};
ghost use Rattle.tables.specs.Operations.{row_added, row_filled};
ghost use Rattle.tables.specs.Records.{address_bytes, address_row, bytes2};

use crate::{SourceAddress, row, shift};

// Adds the row of `a`, `g`, `dirty` and `seat` behind the first `n` rows.
pub fn push_address(t: &mut [u8], n: usize, a: SourceAddress, g: &[u8], dirty: u8, seat: u16)
    requires { HasRow t.old n × IsPrint g.now }
    ensures { t.new ≡ row_added n (address_bytes (address_row a.0 g.now dirty (bytes2 seat))) t.old }
{
    let added = row::new_address(a, g, dirty, seat);
    shift::push_row(t, n, &added);
}

// Fills row `i` of `d` with the fingerprint `g`, and moves it to the end.
pub fn put_block(t: &mut [u8], d: usize, i: usize, g: &[u8])
    requires { (i < d) × ((length t.old ≡ table_bytes d) × IsPrint g.now) }
    ensures { t.new ≡ row_filled d i g.now t.old }
{
    let filled = row::filled(t, i, g);
    shift::replace(t, d, i, &filled);
}
