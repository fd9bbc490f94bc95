// Addresses of four bytes, little-endian, in one lent slice: found, taken out, put in and moved. Each contract is an equation on the addresses: where the
// slice is `listed m ws`, the bytes of the addresses ws and zeros after, it is that of other addresses at the end.
ghost use Rattle.std.specs.Prelude.{◌≡◌, ◌+◌, ◌*◌, ◌≤◌, ◌<◌, length, MatchOption};
ghost use Rattle.std.proofs.Math.Seq.{paste};
ghost use Rattle.tables.specs.Rows.{le4};
ghost use Rattle.tables.specs.Records.{bytes4};
ghost use Rattle.arc.specs.ArcLent.{words};
ghost use Rattle.arclists.specs.Listed.{place_of, Removes, Inserts, Rotates};

use tables::{moves, row};

// The address at place `i`.
pub fn word_at(lists: &[u8], i: usize) -> u32
    requires { i * 4 + 4 ≤ length lists.now }
    ensures { result ≡ le4 lists.now (i * 4) }
{
    row::word_at(lists, i * 4)
}

// Writes the address `a` at place `i`.
pub fn put_word(lists: &mut [u8], i: usize, a: u32)
    requires { i * 4 + 4 ≤ length lists.old }
    ensures { lists.new ≡ paste lists.old (i * 4) (bytes4 a) 4 }
{
    lists[i * 4..i * 4 + 4].copy_from_slice(&a.to_le_bytes());
}

// The place of the first address `a` of `total`, if it is there.
pub fn find_word(lists: &[u8], total: usize, a: u32) -> Option<usize>
    requires { total * 4 ≤ length lists.now }
    ensures { MatchOption result (place_of a (words total lists.now) ≡ total) (λ k. (k < total) × (place_of a (words total lists.now) ≡ k)) }
{
    (0..total).find(|k| word_at(lists, *k) == a)
}

// Takes the address at place `i` of `total` out: the later ones move down, and the last becomes zero.
pub fn remove_word(lists: &mut [u8], total: usize, i: usize)
    requires { (i < total) × (total * 4 ≤ length lists.old) }
    ensures { Removes i total lists.old lists.new }
{
    let at = i * 4;
    let last = total * 4 - 4;
    moves::move_down(lists, at, at + 4, last - at);
    moves::clear(lists, last, 4);
}

// Puts the address `a` in at place `i` of `total`: the later ones move up.
pub fn insert_word(lists: &mut [u8], total: usize, i: usize, a: u32)
    requires { (i ≤ total) × (total * 4 + 4 ≤ length lists.old) }
    ensures { Inserts i total a lists.old lists.new }
{
    let at = i * 4;
    let count = total * 4 - at;
    moves::move_up(lists, at + 4, at, count);
    put_word(lists, i, a);
}

// Moves the address at place `i` to place `j` behind it: those between move down by one.
pub fn rotate_words(lists: &mut [u8], i: usize, j: usize)
    requires { (i ≤ j) × (j * 4 + 4 ≤ length lists.old) }
    ensures { Rotates i j lists.old lists.new }
{
    let a = word_at(lists, i);
    moves::move_down(lists, i * 4, i * 4 + 4, j * 4 - i * 4);
    put_word(lists, j, a);
}
