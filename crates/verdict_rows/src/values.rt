// Values of documents, worked out from their definition in RFC 4998.
ghost use Rattle.std.specs.Prelude.{◌≡◌, [], ◌∷◌, ◌++◌, List, IfOk};
ghost use Rattle.std.specs.List.{flat_map};
ghost use Rattle.hash_kit.specs.Digest.{digest_of};
ghost use Rattle.hash_kit.specs.declared.algorithm.HashAlg.{HashAlg};
ghost use Rattle.hash_kit.specs.declared.algorithm.HashAlg.TheVariants.{Sha256, Sha512};
ghost use Rattle.evidence_syntax.specs.Stamps.{Stamp};
ghost use Rattle.evidence_syntax.specs.Text.{sequence_spelling};
ghost use Rattle.evidence_syntax.specs.DocumentValue.{document_value};

use hash_kit::{HashAlg, HashValue, Hasher, digest};
use std::alloc::{AllocError, Global};

/// The value of a document in a first chain of SHA-256.
pub fn sha256(document: &[u8]) -> HashValue
    ensures { result ≡ digest_of Sha256 document.now }
{
    digest(HashAlg::Sha256, document)
}

/// The SHA-512 of these bytes.
pub fn sha512(bytes: &[u8]) -> HashValue
    ensures { result ≡ digest_of Sha512 bytes.now }
{
    digest(HashAlg::Sha512, bytes)
}

/// The value of a document in a chain of SHA-512 after the chains of this sequence (RFC 4998, 5.2, steps 3 and 4).
pub fn later_value(document: &[u8], older: &[u8]) -> HashValue
    ensures { (chain : List Stamp) (chains : List (List Stamp)) → older.now ≡ sequence_spelling (chain ∷ chains)
        → result ≡ document_value Sha512 (chain ∷ chains) document.now }
{
    let mut hasher = Hasher::new(HashAlg::Sha512);
    hasher.update(sha512(document).bytes());
    hasher.update(sha512(older).bytes());
    hasher.finish()
}

/// The values in ascending order.
pub fn ascending(alloc: Global, values: &[HashValue]) -> Result<Vec<HashValue>, AllocError> {
    let mut values = Vec::from_slice(alloc, values)?;
    values.sort_unstable();
    Ok(values)
}

/// The digest of values, joined as they stand.
pub fn root(alg: HashAlg, values: &[HashValue]) -> HashValue
    ensures { result ≡ digest_of alg (flat_map (λ v. v) values.now) }
{
    let mut hasher = Hasher::new(alg);
    for value in values {
        hasher.update(value.bytes());
    }
    hasher.finish()
}
