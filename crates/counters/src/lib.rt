// The counters, and a thin function that adds to them in place.
#![tactic(auto)]

ghost use Rattle.std.specs.Prelude.{◌≡◌, ◌+◌, ◌<◌, ◌^◌};
ghost use Rattle.counters.specs.Added.{added};

#[derive(Clone, Copy)]
pub struct Counters {
    pub reads: u64,
    pub hits: u64,
    pub flash: u64,
    pub primary: u64,
}

// Adds a call's own counts to the counters.
pub fn add(c: &mut Counters, reads: u64, hits: u64, flash: u64, primary: u64)
    requires { (c.old.reads + reads < 2 ^ 64) × (c.old.hits + hits < 2 ^ 64) × (c.old.flash + flash < 2 ^ 64) × (c.old.primary + primary < 2 ^ 64) }
    ensures { c.new ≡ added c.old reads hits flash primary }
{
    c.reads = c.reads + reads;
    c.hits = c.hits + hits;
    c.flash = c.flash + flash;
    c.primary = c.primary + primary;
}

// The same by value: whoever calls this one needs no walk.
pub fn counted(c: Counters, reads: u64, hits: u64, flash: u64, primary: u64) -> Counters
    requires { (c.reads + reads < 2 ^ 64) × (c.hits + hits < 2 ^ 64) × (c.flash + flash < 2 ^ 64) × (c.primary + primary < 2 ^ 64) }
    ensures { result ≡ added c reads hits flash primary }
{
    let mut t = c;
    add(&mut t, reads, hits, flash, primary);
    t
}
