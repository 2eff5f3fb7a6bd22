ghost use Rattle.std.specs.Prelude.{◌≡◌, ◌↔◌, Some};
ghost use Rattle.hash_kit.specs.Algorithm.{oid_of, algorithm_of, word_of, algorithm_named};
ghost use Rattle.hash_kit.specs.Digest.{size_of};

/// A hash algorithm of the Secure Hash Standard (FIPS 180-4).
#[derive(Clone, Copy, Debug, PartialEq, Eq, Drop)]
pub enum HashAlg {
    Sha256,
    Sha384,
    Sha512,
}

const SHA256_OID: &[u8] = &[0x60, 0x86, 0x48, 0x01, 0x65, 0x03, 0x04, 0x02, 0x01];

const SHA384_OID: &[u8] = &[0x60, 0x86, 0x48, 0x01, 0x65, 0x03, 0x04, 0x02, 0x02];

const SHA512_OID: &[u8] = &[0x60, 0x86, 0x48, 0x01, 0x65, 0x03, 0x04, 0x02, 0x03];

const SHA256: &[u8] = b"sha256";

const SHA384: &[u8] = b"sha384";

const SHA512: &[u8] = b"sha512";

impl HashAlg {
    /// All of them, in their order.
    pub const ALL: [HashAlg; 3] = [HashAlg::Sha256, HashAlg::Sha384, HashAlg::Sha512];

    /// The length of a digest in bytes.
    pub fn size(&self) -> usize
        ensures { result ≡ size_of self.now }
    {
        match self {
            HashAlg::Sha256 => 32,
            HashAlg::Sha384 => 48,
            HashAlg::Sha512 => 64,
        }
    }

    /// The contents octets of the object identifier (RFC 5754, section 2).
    pub fn oid(&self) -> &'static [u8]
        ensures { result.now ≡ oid_of self.now }
    {
        match self {
            HashAlg::Sha256 => SHA256_OID,
            HashAlg::Sha384 => SHA384_OID,
            HashAlg::Sha512 => SHA512_OID,
        }
    }

    /// The algorithm whose object identifier has these contents octets, or None.
    pub fn of_oid(oid: &[u8]) -> Option<HashAlg>
        ensures value { result ≡ algorithm_of oid.now }
        ensures exactly { (alg : HashAlg) → (result ≡ Some alg) ↔ (oid.now ≡ oid_of alg) }
    {
        HashAlg::ALL.iter().copied().find(|alg| alg.oid() == oid)
    }

    /// The word that names the algorithm in a text.
    pub fn word(&self) -> &'static [u8]
        ensures { result.now ≡ word_of self.now }
    {
        match self {
            HashAlg::Sha256 => SHA256,
            HashAlg::Sha384 => SHA384,
            HashAlg::Sha512 => SHA512,
        }
    }

    /// The algorithm that a word names, or None.
    pub fn of_word(word: &[u8]) -> Option<HashAlg>
        ensures value { result ≡ algorithm_named word.now }
        ensures exactly { (alg : HashAlg) → (result ≡ Some alg) ↔ (word.now ≡ word_of alg) }
    {
        HashAlg::ALL.iter().copied().find(|alg| alg.word() == word)
    }
}
