// The body of a D-ARC box: its record, whether it fails 11, 12, 6, 7, 8 or 13, and where its tables and lists lie.
ghost use Rattle.std.specs.Prelude.{◌≡◌, false, ◌≤◌, length};
ghost use Rattle.tables.specs.Rows.{le4};
ghost use Rattle.paper.specs.Lent.{limit_outside};
ghost use Rattle.arc.specs.Arc.{m_of, base_numbers};
ghost use Rattle.arc.specs.ArcLent.{unfit_arc};
ghost use Rattle.image.specs.Body.{no_body};
ghost use Rattle.image.specs.Kinds.{kinds};
ghost use Rattle.arcrefusals.specs.Given.{sizes_of};
ghost use Rattle.restoring.specs.Given.{arc_of, arc_in, body_fields, Laid};

use crate::{Found, label_in};
use arclists::ListSizes;
use arcrefusals::{ArcRecord, base_of, sizes_unfit, state};
use checks::index;
use tables::row;

// C, X, "p and the five list sizes" in a body.
pub(crate) fn sizes_in(body: &[u8]) -> ListSizes
    requires { 116 ≤ length body.now }
    ensures { result ≡ (arc_in body.now).sizes }
{
    ListSizes {
        t1: row::word_at(body, 32) as usize,
        t2: row::word_at(body, 36) as usize,
        b1: row::word_at(body, 40) as usize,
        b2: row::word_at(body, 44) as usize,
        b3: row::word_at(body, 48) as usize,
        p: row::word_at(body, 28) as usize,
        cached: row::word_at(body, 12) as usize,
        extra: row::word_at(body, 16) as usize,
    }
}

// The record in a body.
pub(crate) fn arc_record_in(body: &[u8]) -> ArcRecord
    requires { 116 ≤ length body.now }
    ensures { result ≡ arc_in body.now }
{
    ArcRecord {
        size: row::word_at(body, 4) as usize,
        blocks: row::word_at(body, 8) as usize,
        held: row::word_at(body, 20) as usize,
        label: label_in(&body[52..116]),
        limit: row::word_at(body, 24) as usize,
        sizes: sizes_in(body),
    }
}

// Whether a body whose record `a` has fit numbers isn't as long as that says, or fails 6, 7, 8 or 13.
pub(crate) fn arc_sized_fails(a: ArcRecord, body: &[u8]) -> bool
    requires { (a.blocks ≤ 65536) × (a.sizes.cached ≤ 256) × (m_of (sizes_of a) ≤ 1024) }
    ensures { unfit_arc (sizes_of a) ≡ false → limit_outside (base_numbers (sizes_of a)) ≡ false → a ≡ arc_in body.now
        → le4 body.now 0 ≡ 1 → result ≡ no_body kinds body.now }
{
    let m = a.sizes.cached + a.sizes.cached + a.sizes.extra;
    let second = 116 + m * row::BYTES;
    let third = second + a.sizes.cached * row::BYTES;
    let end = third + m * 4;
    if body.len() != end {
        return true;
    }
    let mut heads = [0u16; index::ENTRIES];
    state::arc_tables(
        a,
        &body[116..second],
        &body[second..third],
        &body[third..end],
        &mut heads,
    )
    .is_err()
}

// Whether a body that starts with 1 isn't as long as its record says, or fails 11, 12, 6, 7, 8 or 13.
pub(crate) fn arc_fails(body: &[u8]) -> bool
    ensures { le4 body.now 0 ≡ 1 → result ≡ no_body kinds body.now }
{
    if body.len() < 116 {
        return true;
    }
    let a = arc_record_in(body);
    if sizes_unfit(a) {
        return true;
    }
    if refusals::limit_unfit(base_of(a)) {
        return true;
    }
    arc_sized_fails(a, body)
}

// What lies in a body.
pub(crate) fn arc_found(body: &[u8]) -> Found
    requires { (no_body kinds body.now ≡ false) × (le4 body.now 0 ≡ 1) }
    ensures arc_record_value { result.arc_record ≡ arc_of (body_fields body.now) }
    ensures laid { Laid body.now (body_fields body.now) result.start result.addresses result.blocks result.lists }
{
    let a = arc_record_in(body);
    let m = a.sizes.cached + a.sizes.cached + a.sizes.extra;
    Found {
        arc_record: a,
        start: 116,
        addresses: m * row::BYTES,
        blocks: a.sizes.cached * row::BYTES,
        lists: m * 4,
    }
}
