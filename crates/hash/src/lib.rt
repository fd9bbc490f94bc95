// SHA-256 (FIPS 180-4) of a slice of bytes. The names are the standard's, and `specs/Sha256.antt` has its definitions.
#![tactic(auto)]

mod constants;
pub mod fingerprint;

ghost use Rattle.std.specs.Prelude.{◌≡◌, ℕ, ◌+◌, ◌-◌, ◌*◌, ◌/◌, ◌<◌, ◌≤◌, nat_lt, List, ◌∷◌, ◌++◌, length, replicate};
ghost use Rattle.std.proofs.lemmas.List.Edits.{sets};
ghost use Rattle.hash.specs.Sha256 as S;
ghost use Rattle.hash.specs.Done.{Done};
ghost use Rattle.hash.specs.Words.{words};

use constants::K;

// A hash value H0 to H7, or the working variables a to h.
#[derive(Clone, Copy)]
pub struct State {
    pub a: u32,
    pub b: u32,
    pub c: u32,
    pub d: u32,
    pub e: u32,
    pub f: u32,
    pub g: u32,
    pub h: u32,
}

// The initial hash value (5.3.3).
#[tactic(auto, unfolding(crate::specs::Sha256::H0))]
pub fn initial() -> State
    ensures { words result ≡ S.H0 }
{
    State {
        a: 0x6a09_e667,
        b: 0xbb67_ae85,
        c: 0x3c6e_f372,
        d: 0xa54f_f53a,
        e: 0x510e_527f,
        f: 0x9b05_688c,
        g: 0x1f83_d9ab,
        h: 0x5be0_cd19,
    }
}

// Ch, in three operations where the standard writes four.
fn ch(x: u32, y: u32, z: u32) -> u32
    ensures { result ≡ S.Ch x y z }
{
    z ^ (x & (y ^ z))
}

// Maj, as the standard writes it.
#[tactic(auto, unfolding(crate::specs::Sha256::Maj))]
fn maj(x: u32, y: u32, z: u32) -> u32
    ensures { result ≡ S.Maj x y z }
{
    (x & y) ^ (x & z) ^ (y & z)
}

// Σ0, by rotations of rotations: 2, 2 + 11 and 2 + 11 + 9 are the standard's 2, 13 and 22.
fn big_sigma0(x: u32) -> u32
    ensures { result ≡ S.Σ0 x }
{
    (x ^ (x ^ x.rotate_right(9)).rotate_right(11)).rotate_right(2)
}

// Σ1, as the standard writes it.
fn big_sigma1(x: u32) -> u32
    ensures { result ≡ S.Σ1 x }
{
    x.rotate_right(6) ^ x.rotate_right(11) ^ x.rotate_right(25)
}

// σ0, as the standard writes it.
fn small_sigma0(x: u32) -> u32
    ensures { result ≡ S.σ0 x }
{
    x.rotate_right(7) ^ x.rotate_right(18) ^ (x >> 3)
}

// σ1, as the standard writes it.
fn small_sigma1(x: u32) -> u32
    ensures { result ≡ S.σ1 x }
{
    x.rotate_right(17) ^ x.rotate_right(19) ^ (x >> 10)
}

// The sum modulo 2^32, which wraps on purpose.
fn add(x: u32, y: u32) -> u32
    ensures { result ≡ S.add32 x y }
{
    x.wrapping_add(y)
}

// Word t of a block.
#[tactic(auto, unfolding(crate::specs::Sha256::M))]
fn load(block: &[u8], t: usize) -> u32
    requires { (t < 16) × (length block.now ≡ 64) }
    ensures { result ≡ S.M block.now t }
{
    let i = 4 * t;
    u32::from_be_bytes([block[i], block[i + 1], block[i + 2], block[i + 3]])
}

// Word t of the schedule, made of the words before it.
#[tactic(auto, unfolding(crate::specs::Sha256::next))]
fn next_word(w: &[u32; 64], t: usize) -> u32
    requires { (16 ≤ t) × (t < 64) }
    ensures { result ≡ S.next w.now t }
{
    let recent = add(small_sigma1(w[t - 2]), w[t - 7]);
    add(add(recent, small_sigma0(w[t - 15])), w[t - 16])
}

// T1 of a round.
#[tactic(auto, unfolding(crate::specs::Sha256::T1))]
fn temp1(e: u32, f: u32, g: u32, h: u32, k: u32, w: u32) -> u32
    ensures { result ≡ S.T1 e f g h k w }
{
    add(add(add(add(h, big_sigma1(e)), ch(e, f, g)), k), w)
}

// T2 of a round.
#[tactic(auto, unfolding(crate::specs::Sha256::T2))]
fn temp2(a: u32, b: u32, c: u32) -> u32
    ensures { result ≡ S.T2 a b c }
{
    add(big_sigma0(a), maj(a, b, c))
}

// One round on the working variables, at the constant k and the word w.
#[tactic(auto, unfolding(crate::specs::Sha256::round))]
fn round(s: State, k: u32, w: u32) -> State
    ensures { words result ≡ S.round k w (words s) }
{
    let t1 = temp1(s.e, s.f, s.g, s.h, k, w);
    let t2 = temp2(s.a, s.b, s.c);
    State {
        a: add(t1, t2),
        b: s.a,
        c: s.b,
        d: s.c,
        e: add(s.d, t1),
        f: s.e,
        g: s.f,
        h: s.g,
    }
}

// Word t of the schedule: the block's below 16, made of the words before it from 16 on.
fn word(w: &[u32; 64], block: &[u8], t: usize) -> u32
    requires { (t < 64) × (length block.now ≡ 64) }
    ensures { result ≡ S.choose (nat_lt t 16) (S.M block.now t) (S.next w.now t) }
{
    if t < 16 {
        load(block, t)
    } else {
        next_word(w, t)
    }
}

// Round t: makes word t of the schedule, stores it there and uses it.
fn step(s: State, w: &mut [u32; 64], block: &[u8], t: usize) -> State
    requires { (t < 64) × (length block.now ≡ 64) }
    ensures { (h : List ℕ) → Done block.now h t w.old (words s) → Done block.now h (t + 1) w.new (words result) }
{
    let x = word(w, block, t);
    w[t] = x;
    round(s, K[t], x)
}

// Eight rounds from round t on. A loop of one round a turn, or this call not inlined, was measured 19 % slower.
#[inline(always)]
fn eight_steps(s: State, w: &mut [u32; 64], block: &[u8], t: usize) -> State
    requires { (t + 8 ≤ 64) × (length block.now ≡ 64) }
    ensures { (h : List ℕ) → Done block.now h t w.old (words s) → Done block.now h (t + 8) w.new (words result) }
{
    let s = step(s, w, block, t);
    let s = step(s, w, block, t + 1);
    let s = step(s, w, block, t + 2);
    let s = step(s, w, block, t + 3);
    let s = step(s, w, block, t + 4);
    let s = step(s, w, block, t + 5);
    let s = step(s, w, block, t + 6);
    step(s, w, block, t + 7)
}

// The working variables after the rounds over a block, from the hash value before it.
// Two loops, so that `t < 16` is decided once in each: one loop was measured 1.5 % slower.
fn rounds(hash: State, block: &[u8]) -> State
    requires { length block.now ≡ 64 }
    ensures { words result ≡ S.rounds (S.W block.now 64) (words hash) 64 }
{
    let mut w = [0u32; 64];
    let mut s = hash;
    'first: for t in (0..16).step_by(8) {
        s = eight_steps(s, &mut w, block, t);
    }
    'later: for t in (16..64).step_by(8) {
        s = eight_steps(s, &mut w, block, t);
    }
    s
}

// The sums of the words of two states.
#[tactic(auto, unfolding(crate::specs::Sha256::sum8))]
fn sum8(hash: State, s: State) -> State
    ensures { words result ≡ S.sum8 (words hash) (words s) }
{
    State {
        a: add(hash.a, s.a),
        b: add(hash.b, s.b),
        c: add(hash.c, s.c),
        d: add(hash.d, s.d),
        e: add(hash.e, s.e),
        f: add(hash.f, s.f),
        g: add(hash.g, s.g),
        h: add(hash.h, s.h),
    }
}

// The hash value after one block of 64 bytes (6.2.2).
#[tactic(auto, unfolding(crate::specs::Sha256::compress))]
pub fn compress(hash: State, block: &[u8]) -> State
    requires { length block.now ≡ 64 }
    ensures { words result ≡ S.compress (words hash) block.now }
{
    sum8(hash, rounds(hash, block))
}

// The hash value after the whole blocks of some bytes. The bytes after the last whole block are not read.
pub fn blocks(hash: State, bytes: &[u8]) -> State
    ensures { words result ≡ S.blocks (words hash) bytes.now (length bytes.now / 64) }
{
    let mut s = hash;
    for block in bytes.chunks_exact(64) {
        s = compress(s, block);
    }
    s
}

// The bytes of a message after its last whole block, then the byte 0x80, then zeros.
pub fn tail(rest: &[u8]) -> [u8; 128]
    requires { length rest.now < 64 }
    ensures { result ≡ rest.now ++ (0x80 ∷ replicate (127 - length rest.now) 0) }
{
    let mut last = [0u8; 128];
    let n = rest.len();
    last[..n].copy_from_slice(rest);
    last[n] = 0x80;
    last
}

// The bytes `last` with the eight bytes of `bits` at `at`, the most significant first.
pub fn put_length(last: [u8; 128], at: usize, bits: u64) -> [u8; 128]
    requires { at ≤ 120 }
    ensures { result ≡ sets last at (S.bytes64 bits) }
{
    let mut b = last;
    b[at..at + 8].copy_from_slice(&bits.to_be_bytes());
    b
}

// The bytes of a hash value, the most significant of each word first.
pub fn digest(hash: State) -> [u8; 32]
    ensures { result ≡ S.digest (words hash) 8 }
{
    let h = [
        hash.a, hash.b, hash.c, hash.d, hash.e, hash.f, hash.g, hash.h,
    ];
    let mut d = [0u8; 32];
    for (i, x) in h.iter().enumerate() {
        d[4 * i..4 * i + 4].copy_from_slice(&x.to_be_bytes());
    }
    d
}

// The digest of a message of any length. Its bit length is taken modulo 2^64.
pub fn sha256(message: &[u8]) -> [u8; 32]
    ensures { result ≡ S.sha256 message.now }
{
    let n = message.len();
    let bits = (n as u64).wrapping_mul(8);
    let over = n % 64;
    let whole = n - over;
    let end = (over + 72) / 64 * 64;
    let hash = blocks(initial(), message);
    let last = put_length(tail(&message[whole..]), end - 8, bits);
    digest(blocks(hash, &last[..end]))
}
