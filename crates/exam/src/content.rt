// Which addresses have one content: blocks of 64 bytes with one fingerprint.
ghost use Rattle.std.specs.Prelude.{◌≡◌, ◌+◌, ◌*◌, ◌≤◌, ◌<◌, ltb, length};
ghost use Rattle.tables.specs.Find.{same};
ghost use Rattle.exam.specs.Small.{kept, print_at, first_with, contents_of};

use hash::fingerprint;
use parts::BoxRecord;
use tables::find;

// The fingerprint of block a.
#[tactic(auto, unfolding(crate::specs::Small::print_at))]
pub(crate) fn print_at(b: BoxRecord, disk: &[u8], a: usize) -> [u8; 32]
    requires { (a < 4) × (a * 64 + 64 ≤ length disk.now) }
    ensures { result ≡ print_at b.label disk.now a }
{
    let label = b.label;
    let at = a * 64;
    fingerprint::labelled_sha256(label, &disk[at..at + 64])
}

// The first address with the content of a.
pub(crate) fn first_with(b: BoxRecord, disk: &[u8], a: usize) -> usize
    requires { (a < 4) × (a * 64 + 64 ≤ length disk.now) }
    ensures is { result ≡ first_with same (print_at b.label disk.now) a }
    ensures most { result ≤ a }
{
    let own = print_at(b, disk, a);
    let first = (0..a).find(|i| {
        let other = print_at(b, disk, *i);
        find::same_fingerprint(&other, &own)
    });
    first.unwrap_or(a)
}

// The same where there is an address a, else 4.
pub(crate) fn told_by(b: BoxRecord, disk: &[u8], a: usize) -> u8
    requires { (a < 4) × (b.blocks * 64 ≤ length disk.now) }
    ensures { result ≡ kept (ltb a b.blocks) (first_with same (print_at b.label disk.now) a) }
{
    if a < b.blocks {
        first_with(b, disk, a) as u8
    } else {
        4
    }
}

// The content of each address.
#[tactic(auto, unfolding(crate::specs::Small::contents_of))]
pub(crate) fn contents(b: BoxRecord, disk: &[u8]) -> [u8; 4]
    requires { b.blocks * 64 ≤ length disk.now }
    ensures { result ≡ contents_of b.label disk.now b.blocks }
{
    [
        told_by(b, disk, 0),
        told_by(b, disk, 1),
        told_by(b, disk, 2),
        told_by(b, disk, 3),
    ]
}
