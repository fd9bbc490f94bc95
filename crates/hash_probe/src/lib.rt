// SHA-256 under names that C and Rust can link, for tests/ and bench/ only.
#![tactic(auto)]

ghost use Rattle.std.specs.Prelude.{◌≡◌, true, cond, ◌++◌, length};
ghost use Rattle.hash.specs.Sha256 as S;
ghost use Rattle.hash.specs.LastChunk.{Size};

// Puts the digest of the message into `digest`.
#[unsafe(no_mangle)]
pub extern "C" fn hash_probe_sha256(message: &[u8], digest: &mut [u8; 32])
    ensures { digest.new ≡ S.sha256 message.now }
{
    *digest = hash::sha256(message);
}

// Whether n is the length of a block.
fn is_size(n: usize) -> bool
    ensures { (result ≡ true → Size n) × (Size n → result ≡ true) }
{
    matches!(n, 64 | 128 | 256 | 512 | 1024 | 2048 | 4096)
}

// Puts the fingerprint of a block under a label into `digest`. Whether the block has one of the seven lengths: `digest` is kept where it hasn't.
#[unsafe(no_mangle)]
pub extern "C" fn hash_probe_labelled_sha256(
    label: &[u8; 64],
    block: &[u8],
    digest: &mut [u8; 32],
) -> bool
    ensures size { (result ≡ true → Size (length block.now)) × (Size (length block.now) → result ≡ true) }
    ensures digest_after { digest.new ≡ cond result (S.sha256 (label.now ++ block.now)) digest.old }
{
    if !is_size(block.len()) {
        return false;
    }
    *digest = hash::fingerprint::labelled_sha256(*label, block);
    true
}
