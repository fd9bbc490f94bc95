// Fresh tables.
ghost use Rattle.std.specs.Prelude.{◌≡◌, ◌≤◌, length};
ghost use Rattle.tables.specs.Rows.{table_bytes};
ghost use Rattle.tables.specs.Records.{fresh_addresses, fresh_blocks};

use crate::{FlashSlot, row, shift};

// Makes the address table of `m` rows fresh.
pub fn fresh_addresses(t: &mut [u8], m: usize)
    requires { length t.old ≡ table_bytes m }
    ensures { t.new ≡ fresh_addresses m }
{
    t.fill(0);
}

// Makes the block table of `d` rows fresh.
pub fn fresh_blocks(t: &mut [u8], d: usize)
    requires { (length t.old ≡ table_bytes d) × (d ≤ 256) }
    ensures { t.new ≡ fresh_blocks d }
{
    for k in 0..d {
        let free = row::free(FlashSlot(k as u32));
        shift::push_row(t, k, &free);
    }
}
