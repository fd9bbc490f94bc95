// Refusals 6, 7, 8, 13 and 9: of tables, lists and counters.
ghost use Rattle.std.specs.Prelude.{◌≡◌, List, [], ◌∷◌, ℕ, length, OnOk};
ghost use Rattle.refusal.specs.Numbers.{number_of};
ghost use Rattle.tables.specs.Index.{heads_length, Blank, Indexed};
ghost use Rattle.paper.specs.Cache.{Counters};
ghost use Rattle.paper.specs.Lent.{test, first, over};
ghost use Rattle.arc.specs.ArcLent.{arc_table_tests};
ghost use Rattle.refusals.specs.Given.{counters_of};
ghost use Rattle.arcrefusals.specs.Given.{sizes_of, arc_lent};
ghost use Rattle.arcrefusals.specs.Checks.{Fits, sound_refusal};

use crate::{ArcRecord, base_of, tops};
use arclists::unsound;
use checks::sound;
use parts::limit;
use refusal::Refusal;

// The first of 6, 7 and 8 that applies, of tables and lists with the box's lengths, but for 8 of the lists. Where none applies, `heads`, 0 everywhere at first,
// is the index of the block rows.
pub(crate) fn arc_sound(
    a: ArcRecord,
    addresses: &[u8],
    blocks: &[u8],
    lists: &[u8],
    heads: &mut [u16],
) -> Result<(), Refusal>
    requires fits { Fits a addresses.now blocks.now lists.now }
    requires blank { Blank heads.old }
    ensures value { number_of result ≡ sound_refusal a addresses.now blocks.now lists.now }
    ensures indexed { OnOk result (Indexed a.sizes.cached blocks.now heads.new) }
    ensures heads_len { length heads.new ≡ heads_length }
{
    let b = base_of(a);
    let d = a.sizes.cached;
    let first = sound::tables_refused(addresses, b.rows, a.held, a.blocks, blocks, d, heads);
    if first == Err(Refusal::BadAddresses) {
        return first;
    }
    if unsound::lists_unsound(a.sizes, addresses, a.held, lists) {
        return Err(Refusal::BadAddresses);
    }
    first
}

// The first of 6, 7, 8 and 13 that applies, of tables and lists with the box's lengths. Where none applies, `heads`, 0 everywhere at first, is the index of the
// block rows.
pub fn arc_tables(
    a: ArcRecord,
    addresses: &[u8],
    blocks: &[u8],
    lists: &[u8],
    heads: &mut [u16],
) -> Result<(), Refusal>
    requires fits { Fits a addresses.now blocks.now lists.now }
    requires blank { Blank heads.old }
    ensures by_index { (disk flash : List ℕ) (k : Counters) → number_of result ≡ first (arc_table_tests (sizes_of a) (arc_lent a disk flash addresses.now
        blocks.now lists.now k) []) }
    ensures indexed { OnOk result (Indexed a.sizes.cached blocks.now heads.new) }
    ensures heads_len { length heads.new ≡ heads_length }
{
    arc_sound(a, addresses, blocks, lists, heads)?;
    if tops::top_uncached(a, addresses, blocks, lists, heads) {
        return Err(Refusal::DirtyUncached);
    }
    if limit::excess_row(base_of(a), addresses) < a.held {
        return Err(Refusal::TooDirty);
    }
    Ok(())
}

// The first of 6, 7, 8, 13 and 9 that applies, of tables and lists with the box's lengths. Where none applies, `heads` is the index of the block rows.
pub(crate) fn arc_state(
    a: ArcRecord,
    addresses: &[u8],
    blocks: &[u8],
    lists: &[u8],
    c: counters::Counters,
    heads: &mut [u16],
) -> Result<(), Refusal>
    requires fits { Fits a addresses.now blocks.now lists.now }
    requires blank { Blank heads.old }
    ensures by_index { (disk flash : List ℕ) → number_of result ≡ first (arc_table_tests (sizes_of a) (arc_lent a disk flash addresses.now blocks.now
        lists.now (counters_of c)) (test (over (counters_of c)) 9 ∷ [])) }
    ensures indexed { OnOk result (Indexed a.sizes.cached blocks.now heads.new) }
    ensures heads_len { length heads.new ≡ heads_length }
{
    arc_tables(a, addresses, blocks, lists, heads)?;
    if refusals::counters_over(c) {
        return Err(Refusal::CounterFull);
    }
    Ok(())
}
