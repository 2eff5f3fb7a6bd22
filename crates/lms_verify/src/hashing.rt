ghost use Rattle.std.specs.Prelude.{◌≡◌, ◌++◌, length};
ghost use Rattle.std.specs.Int.{w16, w32, to_be_bytes};
ghost use Rattle.hash_kit.specs.Hashing.{Hashes};
ghost use Rattle.lms_verify.specs.Ots.{hash_of};

use hash_kit::{HashAlg, HashValue, Hasher};

/// Marks the hash of a message, D_MESG (RFC 8554, section 7.1).
pub const MESSAGE: u16 = 0x8181;

/// Marks the hash of a one-time public key, D_PBLC.
pub const ONE_TIME_KEY: u16 = 0x8080;

/// Marks the hash of a leaf of the tree, D_LEAF.
pub const LEAF: u16 = 0x8282;

/// Marks the hash of an inner node of the tree, D_INTR.
pub const INNER: u16 = 0x8383;

/// A hasher of what every hash begins with: I || u32str(number) || u16str(mark).
pub fn marked(identifier: &[u8], number: u32, mark: u16) -> Hasher
    ensures { Hashes result HashAlg.Sha256 (identifier.now ++ to_be_bytes w32 number ++ to_be_bytes w16 mark) }
{
    let mut hasher = Hasher::new(HashAlg::Sha256);
    hasher.update(identifier);
    hasher.update(&number.to_be_bytes());
    hasher.update(&mark.to_be_bytes());
    hasher
}

/// H(I || u32str(number) || u16str(mark) || first || second).
pub fn hash(identifier: &[u8], number: u32, mark: u16, first: &[u8], second: &[u8]) -> HashValue
    ensures value { result ≡ hash_of identifier.now number mark (first.now ++ second.now) }
    ensures size { length result ≡ 32 }
{
    let mut hasher = marked(identifier, number, mark);
    hasher.update(first);
    hasher.update(second);
    hasher.finish()
}
