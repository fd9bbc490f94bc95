// The first and the last part of a step: the requested address leaves its list and the table, and joins them again.
ghost use Rattle.std.specs.Prelude.{◌≡◌, Bool, cond, List, ℕ, ◌+◌, ◌*◌, ◌≤◌, ◌<◌, eqb, length};
ghost use Rattle.tables.specs.Rows.{table_bytes};
ghost use Rattle.tables.specs.Records.{bytes2};
ghost use Rattle.paper.specs.Cache.{Numbers, AddressRow, Box, without_address};
ghost use Rattle.paper.specs.Engine.{Fixed, labelled};
ghost use Rattle.paper.specs.Lent.{bit};
ghost use Rattle.paper.specs.Index.{index_where};
ghost use Rattle.paper.specs.Layout.{Addrs};
ghost use Rattle.paper.specs.KeyedLaws.{Distinct};
ghost use Rattle.arc.specs.Arc.{Lists, list_of, parted, joined, to_t2};
ghost use Rattle.arc.specs.ArcStep.{ArcSound};
ghost use Rattle.arclists.specs.Holding.{total, Holds, Kept, was_of};
ghost use Rattle.parts.specs.Rep.{Rep, engine};
ghost use Rattle.arcstep.specs.Runs.{Within, Runs, Stands, sizes_for, joins};

use crate::{Parted, Running};
use arclists::{ListName, ListSizes, adapt, leave};
use parts::{BoxRecord, rows};
use tables::{SourceAddress, put, shift};

// Takes row `i` of `n` out, if there is one. How many rows are held then.
pub(crate) fn row_out(addrs: &mut [u8], n: usize, i: usize) -> usize
    requires { table_bytes n ≤ length addrs.old }
    ensures upper_bound { result ≤ n }
    ensures by_index { (P m a : ℕ) (l : List (AddressRow (Fixed 32))) → Addrs P m n addrs.old l → Distinct eqb (λ x. x.address) l
        → i ≡ index_where (λ x. eqb a x.address) l → Addrs P m result addrs.new (without_address a l) }
{
    if n <= i {
        return n;
    }
    shift::remove_row(addrs, n, i);
    n - 1
}

// The requested address leaves: its list, with which p moves, and its row as in base step 1.
pub(crate) fn part(
    b: BoxRecord,
    s: ListSizes,
    a: SourceAddress,
    addrs: &mut [u8],
    lists: &mut [u8],
) -> Parted
    requires { (b.held ≤ b.rows) × (length addrs.old ≡ table_bytes b.rows) × (total s * 4 ≤ length lists.old) }
    ensures held_le_held { (result.running.held ≤ b.held) × (result.running.primary ≡ 0) × (result.running.flashed ≡ 0) × (total result.running.sizes ≤ total s)
        × Kept result.running.sizes s }
    ensures by_index { (disk flash blocks : List ℕ) (l : Lists) (x : Box (Fixed 32) (Fixed b.size))
        → Rep b disk flash addrs.old blocks x → Holds b.rows s lists.old l → ArcSound (engine b) (sizes_for b s) l x
        → (was_of result.was ≡ list_of a.0 l)
        × Runs b result.running disk flash addrs.new blocks lists.new (parted (engine b) s.cached l x a.0 (list_of a.0 l)) }
{
    let left = leave::leave(s, lists, a.0);
    let was = left.was;
    let mut sizes = left.sizes;
    sizes.p = adapt::new_p(s, was);
    let i = rows::row_of(addrs, b.held, a);
    let held = row_out(addrs, b.held, i);
    let running = Running {
        held,
        sizes,
        flashed: 0,
        primary: 0,
    };
    Parted { running, was }
}

// ".. and joins one last"; "an address of T1 or T2 goes to T2". One of B1 or B2 goes to T2, one of B3 and a new one to T1.
#[tactic(auto, unfolding(arc::specs::Arc::to_t2))]
pub(crate) fn joins(was: Option<ListName>) -> ListName
    ensures { (N : Numbers) → result ≡ joins (to_t2 (labelled N) (was_of was)) }
{
    match was {
        None | Some(ListName::B3) => ListName::T1,
        Some(ListName::T1 | ListName::T2 | ListName::B1 | ListName::B2) => ListName::T2,
    }
}

// The requested address joins: its row as newest, and its name.
pub(crate) fn join(
    b: BoxRecord,
    t: Running,
    was: Option<ListName>,
    a: SourceAddress,
    g: &[u8],
    dirty: u8,
    seat: u16,
    addrs: &mut [u8],
    lists: &mut [u8],
) -> Running
    requires { (t.held < b.rows) × (b.rows ≤ 1024) × (length addrs.old ≡ table_bytes b.rows) × (total t.sizes * 4 + 4 ≤ length lists.old)
        × (length g.now ≡ 32) }
    ensures primary_value { (result.primary ≡ t.primary) × (result.flashed ≡ t.flashed) }
    ensures by_index { (disk flash blocks : List ℕ) (R : Within b) (f : Fixed 32) (w : Bool)
        → Runs b t disk flash addrs.old blocks lists.old R → f.0 ≡ g.now → dirty ≡ bit w → a.0 < b.blocks
        → total t.sizes < b.rows
        → Stands b result disk flash addrs.new blocks lists.new (joined (engine b) a.0 f w (bytes2 seat) (was_of was) R) }
{
    put::push_address(addrs, t.held, a, g, dirty, seat);
    let s = leave::join(t.sizes, lists, joins(was), a.0);
    Running {
        held: t.held + 1,
        sizes: s,
        ..t
    }
}
