// U8's limit on dirty rows.
ghost use Rattle.std.specs.Prelude.{◌≡◌, ◌≤◌, length};
ghost use Rattle.tables.specs.Rows.{table_bytes};
ghost use Rattle.parts.specs.Limit.{excess_row};

use crate::BoxRecord;
use tables::row;

// The index of the oldest dirty row, if more rows are dirty than the limit; else the count of rows held.
// It is that count and no `None`: `excess_row`, of specs/Limit.antt, gives a number, as the paper's `index_where` does.
pub fn excess_row(b: BoxRecord, addrs: &[u8]) -> usize
    requires { table_bytes b.held ≤ length addrs.now }
    ensures { result ≡ excess_row b addrs.now }
{
    if b.held <= b.limit {
        return b.held;
    }
    let mut oldest = b.held;
    let mut count = 0;
    for i in (0..b.held).rev() {
        if row::is_dirty(addrs, i) {
            oldest = i;
            count += 1;
        }
    }
    if b.limit < count {
        return oldest;
    }
    b.held
}
