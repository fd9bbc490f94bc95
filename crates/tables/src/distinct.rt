// Whether the addresses, or the slots, of a table's rows are all different.
ghost use Rattle.std.specs.Prelude.{◌≡◌, true, cond, map, ℕ, ◌+◌, ◌*◌, ◌^◌, ◌<◌, ◌≤◌, eqb, length};
ghost use Rattle.tables.specs.Rows.{le4, rows, row_at, row_bytes, HasRows};
ghost use Rattle.tables.specs.Bits.{bit_at};
ghost use Rattle.tables.specs.Sound.{distinct, row_address, row_slot};

use crate::row;

// Sets the bit of `x` in `seen`, where eight numbers have a byte. Whether it was clear.
pub fn set_bit(seen: &mut [u8], x: usize) -> bool
    requires { x < length seen.old * 8 }
    ensures value { result ≡ eqb (bit_at seen.old x) 0 }
    ensures y_after { result ≡ true → (y : ℕ) → bit_at seen.new y ≡ cond (eqb y x) 1 (bit_at seen.old y) }
    ensures seen_len_unchanged { length seen.new ≡ length seen.old }
{
    let at = x / 8;
    let i = x % 8;
    let b = seen[at];
    if (b >> i) % 2 != 0 {
        return false;
    }
    seen[at] = b + (1u8 << i);
    true
}

// Whether the numbers of four bytes at place `at` of the first `n` rows are all different: each has a bit of `BYTES` bytes.
pub(crate) fn numbers_distinct<const BYTES: usize>(t: &[u8], n: usize, at: usize) -> bool
    requires has_rows { HasRows t.now n × (at + 4 ≤ row_bytes) × (BYTES < 2 ^ 32) }
    requires by_index { (k : ℕ) → k < n → le4 (row_at t.now k) at < BYTES * 8 }
    ensures { result ≡ distinct (map (λ r. le4 r at) (rows n t.now)) }
{
    let mut seen = [0u8; BYTES];
    for k in (0..n).rev() {
        let x = row::number_at(t, k, at) as usize;
        if !set_bit(&mut seen, x) {
            return false;
        }
    }
    true
}

// Whether the addresses of the first `n` rows are all different.
#[tactic(auto, unfolding(crate::specs::Records::read_address))]
pub fn addresses_distinct(t: &[u8], n: usize) -> bool
    requires has_rows { HasRows t.now n }
    requires by_index { (k : ℕ) → k < n → row_address (row_at t.now k) < 65536 }
    ensures { result ≡ distinct (map row_address (rows n t.now)) }
{
    numbers_distinct::<8192>(t, n, row::ADDRESS)
}

// The same where the addresses are below 4,096: with fewer bytes to clear.
#[tactic(auto, unfolding(crate::specs::Records::read_address))]
pub fn few_distinct(t: &[u8], n: usize) -> bool
    requires has_rows { HasRows t.now n }
    requires by_index { (k : ℕ) → k < n → row_address (row_at t.now k) < 4096 }
    ensures { result ≡ distinct (map row_address (rows n t.now)) }
{
    numbers_distinct::<512>(t, n, row::ADDRESS)
}

// Whether the slots of the first `d` rows are all different.
#[tactic(auto, unfolding(crate::specs::Records::read_block))]
pub fn slots_distinct(t: &[u8], d: usize) -> bool
    requires has_rows { HasRows t.now d }
    requires by_index { (k : ℕ) → k < d → row_slot (row_at t.now k) < 256 }
    ensures { result ≡ distinct (map row_slot (rows d t.now)) }
{
    numbers_distinct::<32>(t, d, row::SLOT)
}
