ghost use Rattle.std.specs.Prelude.{◌≡◌, ℕ, List, [], ◌++◌, length};
ghost use Rattle.hash_kit.specs.Digest.{digest_of, size_of};
ghost use Rattle.hash_kit.specs.Hashing.{Hashes};

use crate::algorithm::HashAlg;
use crate::value::HashValue;
use sha2::{Digest, Sha256, Sha384, Sha512};

/// The digest of a message.
pub fn digest(alg: HashAlg, bytes: &[u8]) -> HashValue
    ensures value { result ≡ digest_of alg bytes.now }
    ensures size { length result ≡ size_of alg }
{
    match alg {
        HashAlg::Sha256 => HashValue::of(&Sha256::digest(bytes)),
        HashAlg::Sha384 => HashValue::of(&Sha384::digest(bytes)),
        HashAlg::Sha512 => HashValue::of(&Sha512::digest(bytes)),
    }
}

/// A digest under way, of a message that comes piece by piece.
#[derive(Drop)]
pub struct Hasher {
    state: State,
}

#[derive(Drop)]
enum State {
    Sha256(Sha256),
    Sha384(Sha384),
    Sha512(Sha512),
}

impl Hasher {
    /// A hasher of the empty message.
    pub fn new(alg: HashAlg) -> Hasher
        ensures { Hashes result alg [] }
    {
        let state = match alg {
            HashAlg::Sha256 => State::Sha256(Sha256::new()),
            HashAlg::Sha384 => State::Sha384(Sha384::new()),
            HashAlg::Sha512 => State::Sha512(Sha512::new()),
        };
        Hasher { state }
    }

    /// Adds these bytes to the message.
    pub fn update(&mut self, bytes: &[u8])
        ensures { (alg : HashAlg) (message : List ℕ) → Hashes self.old alg message
            → Hashes self.new alg (message ++ bytes.now) }
    {
        match &mut self.state {
            State::Sha256(hasher) => hasher.update(bytes),
            State::Sha384(hasher) => hasher.update(bytes),
            State::Sha512(hasher) => hasher.update(bytes),
        }
    }

    /// The digest of the message.
    pub fn finish(self) -> HashValue
        ensures value { (alg : HashAlg) (message : List ℕ) → Hashes self alg message
            → result ≡ digest_of alg message }
        ensures size { (alg : HashAlg) (message : List ℕ) → Hashes self alg message
            → length result ≡ size_of alg }
    {
        match self.state {
            State::Sha256(hasher) => HashValue::of(&hasher.finalize()),
            State::Sha384(hasher) => HashValue::of(&hasher.finalize()),
            State::Sha512(hasher) => HashValue::of(&hasher.finalize()),
        }
    }
}
