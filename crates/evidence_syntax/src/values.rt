// The values of documents in a chain.
ghost use Rattle.std.specs.Prelude.{◌≡◌, ◌+◌, ◌<◌, ◌^◌, [], ◌∷◌, ◌++◌, ℕ, List, length, map, IfOk, OnOk, OnErr};
ghost use Rattle.std.specs.List.{flat_map};
ghost use Rattle.hash_kit.specs.Digest.{digest_of};
ghost use Rattle.der_values.specs.Value.{length_octets, value};
ghost use Rattle.evidence_syntax.specs.Stamps.{Stamp, chain_seen, chains_seen};
ghost use Rattle.evidence_syntax.specs.Text.{chain_text};
ghost use Rattle.evidence_syntax.specs.DocumentValue.{values_after};

use crate::sizes::extra_of;
use crate::stamps::Chain;
use crate::writing::write_chain;
use der_values::Bytes;
use hash_kit::{HashAlg, HashValue, Hasher, digest};
use std::alloc::{AllocError, Global};
use std::marker::Model;

/// The older chains of a chain, each written once. Contracts see the contents of their sequence.
#[derive(Drop)]
pub struct OlderChains {
    contents: Vec<u8>,
}

impl Model for OlderChains {
    ghost use Rattle.std.specs.Prelude.{List, ℕ};

    ghost Value = { List ℕ };

    ghost view = { λ older. older.contents.items };
}

impl OlderChains {
    /// No chains.
    pub fn new(alloc: Global) -> OlderChains
        ensures { result ≡ [] }
    {
        OlderChains {
            contents: Vec::new(alloc),
        }
    }

    /// Adds the chain that comes after these. Where there is no memory, they are as they were.
    pub fn add(&mut self, chain: &Chain<'_>) -> Result<(), AllocError>
        requires { length (chain_text (chain_seen chain.now)) < 2 ^ 32 }
        ensures added { OnOk result (self.new ≡ self.old ++ chain_text (chain_seen chain.now)) }
        ensures kept { OnErr result (self.new ≡ self.old) }
    {
        write_chain(&mut self.contents, chain)
    }

    /// The value of each document in the chain after these (RFC 4998, 5.2): its digest where there is none, and else the
    /// digest of its digest and that of the sequence of all of them. An error is want of memory.
    pub fn values(&self, alg: HashAlg, documents: &[Bytes]) -> Result<Vec<HashValue>, AllocError>
        requires { length self.now < 2 ^ 32 }
        ensures { (chains : List (List Stamp)) → self.now ≡ flat_map chain_text chains
            → IfOk result (λ values. values.items ≡ values_after alg chains documents.now) }
    {
        let alloc = *self.contents.allocator();
        let contents = self.contents.as_slice();
        if contents.is_empty() {
            return digests(alloc, alg, documents);
        }
        let sequence = sequence_digest(alloc, alg, contents)?;
        let values = renewed_values(alloc, alg, &sequence, documents)?;
        Ok(values)
    }
}

/// The value of each document in the chain after these older ones (RFC 4998, 5.2): its digest where there is none, and
/// else the digest of its digest and that of the sequence of all older chains. An error is want of memory.
pub fn document_values(
    alloc: Global,
    alg: HashAlg,
    older: &[Chain<'_>],
    documents: &[Bytes],
) -> Result<Vec<HashValue>, AllocError>
    requires { length (flat_map chain_text (chains_seen older.now)) < 2 ^ 32 }
    ensures { IfOk result (λ values. values.items ≡ values_after alg (chains_seen older.now) documents.now) }
{
    let mut chains = OlderChains::new(alloc);
    for chain in older {
        chains.add(chain)?;
    }
    chains.values(alg, documents)
}

// The digest of the sequence with these contents, which are not copied.
#[tactic(auto, unfolding(der_values::specs::Value::value))]
fn sequence_digest(alloc: Global, alg: HashAlg, contents: &[u8]) -> Result<HashValue, AllocError>
    requires { length contents.now < 2 ^ 32 }
    ensures { IfOk result (λ hash. hash ≡ digest_of alg (value 48 contents.now)) }
{
    let header = sequence_header(alloc, contents.len() as u32)?;
    Ok(joined(alg, header.as_slice(), contents))
}

// What stands before the contents of a SEQUENCE of so many bytes.
#[tactic(auto, using(der_values::proofs::Values::short_is))]
fn sequence_header(alloc: Global, contents: u32) -> Result<Vec<u8>, AllocError>
    ensures { IfOk result (λ header. header.items ≡ 48 ∷ length_octets contents) }
{
    let extra = extra_of(contents);
    let mut header = Vec::new(alloc);
    header.push(0x30)?;
    if extra == 0 {
        header.push(contents as u8)?;
        return Ok(header);
    }
    header.push(0x80 + extra as u8)?;
    header.extend_from_slice(&contents.to_be_bytes()[4 - extra..])?;
    Ok(header)
}

fn digests(alloc: Global, alg: HashAlg, documents: &[Bytes]) -> Result<Vec<HashValue>, AllocError>
    ensures { IfOk result (λ values. values.items ≡ map (digest_of alg) documents.now) }
{
    let mut values = Vec::new(alloc);
    for document in documents {
        values.push(digest(alg, document.as_slice()))?;
    }
    Ok(values)
}

// The digest of each document's digest and that of the older chains.
fn renewed_values(
    alloc: Global,
    alg: HashAlg,
    sequence: &HashValue,
    documents: &[Bytes],
) -> Result<Vec<HashValue>, AllocError>
    ensures { IfOk result (λ values. values.items
        ≡ map (λ document. digest_of alg (digest_of alg document ++ sequence.now)) documents.now) }
{
    let mut values = Vec::new(alloc);
    for document in documents {
        let hash = digest(alg, document.as_slice());
        values.push(joined(alg, hash.bytes(), sequence.bytes()))?;
    }
    Ok(values)
}

// The digest of two byte strings, one behind the other.
fn joined(alg: HashAlg, first: &[u8], second: &[u8]) -> HashValue
    ensures { result ≡ digest_of alg (first.now ++ second.now) }
{
    let mut hasher = Hasher::new(alg);
    hasher.update(first);
    hasher.update(second);
    hasher.finish()
}
