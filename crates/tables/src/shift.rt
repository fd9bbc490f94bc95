// Rows taken out, added and moved. The rows between keep their order.
ghost use Rattle.std.specs.Prelude.{◌≡◌, ◌++◌, ◌<◌, length, drop};
ghost use Rattle.tables.specs.Rows.{row_bytes, table_bytes, rows, flat, remove_at, HasRow, HasRows};
ghost use Rattle.tables.specs.Operations.{row_out, row_added, row_newest, row_freed};

use crate::{moves, row};

// Takes row `i` out of the first `n`: the later ones move down by a row, and the last becomes zero.
pub fn remove_row(t: &mut [u8], n: usize, i: usize)
    requires { (i < n) × HasRows t.old n }
    ensures { t.new ≡ row_out n i t.old }
{
    let none = [0u8; row::BYTES];
    replace(t, n, i, &none);
}

// Writes `row` as row `n`, behind the first `n`.
pub(crate) fn push_row(t: &mut [u8], n: usize, row: &[u8])
    requires { HasRow t.old n × (length row.now ≡ row_bytes) }
    ensures { t.new ≡ row_added n row.now t.old }
{
    moves::write(t, n * row::BYTES, row);
}

// Takes row `i` out of the first `n`: the later ones move down by a row, and `row` becomes the last of them.
pub(crate) fn replace(t: &mut [u8], n: usize, i: usize, row: &[u8])
    requires { (i < n) × (HasRows t.old n × (length row.now ≡ row_bytes)) }
    ensures { t.new
        ≡ flat (remove_at (rows n t.old) i) ++ (row.now ++ drop (table_bytes n) t.old) }
{
    let at = i * row::BYTES;
    let last = n * row::BYTES - row::BYTES;
    moves::move_down(t, at, at + row::BYTES, last - at);
    moves::write(t, last, row);
}

// Moves row `i` of `d` to the end.
pub fn to_newest(t: &mut [u8], d: usize, i: usize)
    requires { (i < d) × (length t.old ≡ table_bytes d) }
    ensures { t.new ≡ row_newest d i t.old }
{
    let moved = row::copy(t, i);
    replace(t, d, i, &moved);
}

// Frees row `i` of `d`, and moves it to the front: used 0 and no fingerprint, with its slot.
pub fn to_front(t: &mut [u8], d: usize, i: usize)
    requires { (i < d) × (length t.old ≡ table_bytes d) }
    ensures { t.new ≡ row_freed d i t.old }
{
    let at = i * row::BYTES;
    let freed = row::freed(t, i);
    moves::move_up(t, row::BYTES, 0, at);
    moves::write(t, 0, &freed);
}
