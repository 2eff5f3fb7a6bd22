ghost use Rattle.std.specs.Prelude.{◌≡◌};
ghost use Rattle.sha2.specs.Sha256.{sha256};
ghost use Rattle.bench_works.specs.Chained.{padded, padded_digest, chained};

use sha2::{Digest, Sha256};

/// The digest of the digest of .. 32 bytes: so many blocks of SHA-256.
pub fn blocks(start: [u8; 32], count: u32) -> [u8; 32]
    ensures { result ≡ chained sha256 count start }
{
    let mut value = start;
    for done in 0..count {
        value = Sha256::digest(&value);
    }
    value
}

// The value, and as many zeros behind it.
fn padded(value: &[u8; 32]) -> [u8; 64]
    ensures { result ≡ padded value.now }
{
    let mut message = [0; 64];
    message[..32].copy_from_slice(value);
    message
}

/// The digest of 64 bytes that begin with the digest of 64 bytes .. that begin with this value.
pub fn padded_digests(start: [u8; 32], count: u32) -> [u8; 32]
    ensures { result ≡ chained padded_digest count start }
{
    let mut value = start;
    for done in 0..count {
        value = Sha256::digest(&padded(&value));
    }
    value
}
