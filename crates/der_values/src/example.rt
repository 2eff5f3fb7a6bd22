//! An example of a format by a table, for crates that have formats of their own: a catalogue of keys.

ghost use Rattle.std.specs.Prelude.{◌≡◌, ◌<◌, ◌^◌, ◌++◌, ℕ, List, [], length, Some, OnOk, OnErr, IfOk, IfErr, IfSome, IsOkAnd};
ghost use Rattle.std.specs.Option.{option_map};
ghost use Rattle.der_values.specs.Steps.{Gives};
ghost use Rattle.der_values.specs.Next.{contents, seen, IsValue};
ghost use Rattle.der_values.specs.Shape.{checked};
ghost use Rattle.der_values.specs.Reading.{check_optional, Finds};
ghost use Rattle.der_values.specs.Grammar.{from_start};
ghost use Rattle.der_values.specs.Algorithm.{name_seen};
ghost use Rattle.der_values.specs.Example.{is_true, catalogue_checks, start, is_sha256, true_of, key_after, parts_of, parts_seen, Parts, ReadsCatalogue, first_fault, one_key_text, one_key_parts};
ghost use Rattle.der_values.specs.Inside.{hash_named, hash_seen, hash_at, each_key, keys_at, contents_at, catalogue_at};

use crate::algorithm::{AlgName, read_algorithm};
use crate::fault::{DerFault, DerKind};
use crate::order::set_order;
use crate::reader::Reader;
use crate::tlv::Tlv;
use crate::typed::read_boolean;
use crate::writing::write_tlv;
use std::alloc::AllocError;
use std::cmp::Ordering;

const SHA256: [u8; 9] = [0x60, 0x86, 0x48, 0x01, 0x65, 0x03, 0x04, 0x02, 0x01];

/// A catalogue: SEQUENCE { AlgorithmIdentifier, [BOOLEAN TRUE], SEQUENCE OF OCTET STRING }.
#[derive(Clone, Copy, Debug)]
pub struct Catalogue<'a> {
    pub hash: AlgName<'a>,
    pub is_complete: bool,
    pub keys: u64,
}

/// What is wrong with the bytes of a catalogue.
#[derive(Clone, Copy, Debug, PartialEq, Eq)]
pub enum CatalogueKind {
    Der(DerKind),
    /// The hash is not SHA-256, or it has parameters.
    UnknownHash,
    /// The key is below the one before.
    KeyOrder,
}

/// The first fault, and the place where it stands.
#[derive(Clone, Copy, Debug, PartialEq, Eq)]
pub struct CatalogueFault {
    pub place: u64,
    pub kind: CatalogueKind,
}

impl From<DerFault> for CatalogueFault {
    ghost use Rattle.der_values.specs.Example.{der};

    ghost from_gives = { λ e f. f ≡ der e };

    fn from(e: DerFault) -> CatalogueFault {
        CatalogueFault {
            place: e.place,
            kind: CatalogueKind::Der(e.kind),
        }
    }
}

fn is_sha256_name(name: &AlgName<'_>) -> bool
    ensures { result ≡ is_sha256 (name_seen name.now) }
{
    name.oid == SHA256.as_slice() && name.params.is_none()
}

// The whole AlgorithmIdentifier is read before it is judged.
#[tactic(auto, using(crate::proofs::Passed::algorithm_alike), unfolding(crate::specs::Example::known_hash))]
fn hash<'a>(t: &Tlv<'a>) -> Result<AlgName<'a>, CatalogueFault>
    requires { IsValue t.now }
    ensures { Finds hash_named hash_seen result (hash_at start (seen t.now)) }
{
    let name = read_algorithm(t)?;
    if !is_sha256_name(&name) {
        return Err(CatalogueFault {
            place: t.place,
            kind: CatalogueKind::UnknownHash,
        });
    }
    Ok(name)
}

#[tactic(auto, unfolding(crate::specs::Example::true_of))]
fn check_true(t: &Tlv<'_>) -> Result<(), CatalogueFault>
    requires { IsValue t.now }
    ensures { Gives (λ u. u) result (true_of (seen t.now)) }
{
    if read_boolean(t)? {
        Ok(())
    } else {
        Err(CatalogueFault {
            place: t.place,
            kind: CatalogueKind::Der(DerKind::BadValue),
        })
    }
}

fn check_complete(t: &Option<Tlv<'_>>) -> Result<(), CatalogueFault>
    requires { IfSome t.now IsValue }
    ensures { Gives (λ u. start) result (check_optional catalogue_checks (checked is_true) start (option_map seen t.now)) }
{
    match t {
        Some(t) => check_true(t),
        None => Ok(()),
    }
}

// The encoding of a key that is not below the one before.
#[tactic(auto, unfolding(crate::specs::Example::key_after))]
fn key<'a>(before: &[u8], t: &Tlv<'a>) -> Result<&'a [u8], CatalogueFault>
    requires { IsValue t.now }
    ensures { Gives (λ b. b.now) result (key_after before.now (seen t.now)) }
{
    if set_order(before, t.whole) == Ordering::Greater {
        return Err(CatalogueFault {
            place: t.place,
            kind: CatalogueKind::KeyOrder,
        });
    }
    Ok(t.whole)
}

// The number of keys that are left, which are all in order.
fn all_keys(mut reader: Reader<'_>) -> Result<u64, CatalogueFault>
    ensures { Finds (λ keys before. length keys) (λ n. n) result (each_key reader.entry) }
{
    let mut before: &[u8] = &[];
    let mut count = 0;
    while !reader.at_end() {
        before = key(before, &reader.expect(0x04)?)?;
        count += 1;
    }
    Ok(count)
}

#[tactic(auto, unfolding(crate::specs::Reading::read, crate::specs::Next::finish_of))]
fn keys(t: &Tlv<'_>) -> Result<u64, CatalogueFault>
    requires { IsValue t.now }
    ensures { Finds (λ p before. length p.0) (λ n. n) result (keys_at start (seen t.now)) }
{
    all_keys(t.contents())
}

#[tactic(auto, using(crate::proofs::Passed::optional_checked), unfolding(crate::specs::Reading::read))]
fn catalogue_in<'a>(t: &Tlv<'a>) -> Result<Catalogue<'a>, CatalogueFault>
    requires { IsValue t.now }
    ensures { Finds (λ p before. parts_of p) parts_seen result (contents_at (contents (seen t.now))) }
{
    let mut reader = t.contents();
    let hash = hash(&reader.expect(0x30)?)?;
    let complete = reader.optional(0x01)?;
    check_complete(&complete)?;
    let keys = keys(&reader.expect(0x30)?)?;
    reader.finish()?;
    Ok(Catalogue {
        hash,
        is_complete: complete.is_some(),
        keys,
    })
}

#[tactic(auto, unfolding(crate::specs::Reading::read))]
fn whole_catalogue(bytes: &[u8]) -> Result<Catalogue<'_>, CatalogueFault>
    ensures { Finds (λ p before. parts_of p.0) parts_seen result (catalogue_at (from_start bytes.now)) }
{
    let mut reader = Reader::new(bytes, 0);
    let catalogue = catalogue_in(&reader.expect(0x30)?)?;
    reader.finish()?;
    Ok(catalogue)
}

/// The catalogue that the bytes are.
pub fn read_catalogue(bytes: &[u8]) -> Result<Catalogue<'_>, CatalogueFault>
    // What is answered is what the bytes say, and what they say is answered.
    ensures found { IfOk result (λ c. ReadsCatalogue bytes.now (parts_seen c)) }
    ensures only { (parts : Parts) → ReadsCatalogue bytes.now parts → IsOkAnd result (λ c. parts_seen c ≡ parts) }

    // Else the first fault is.
    ensures fault { IfErr result (λ e. first_fault bytes.now ≡ Some e) }
{
    whole_catalogue(bytes)
}

/// Writes the catalogue of one key at the end of `out`. Where there is no memory, `out` is as it was.
#[tactic(auto, unfolding(crate::specs::Shape::spell))]
pub fn write_catalogue(out: &mut Vec<u8>, key: &[u8]) -> Result<(), AllocError>
    requires { length key.now < 2 ^ 31 }
    ensures ok { OnOk result (out.new.items ≡ out.old.items ++ one_key_text key.now) }
    ensures err { OnErr result (out.new.items ≡ out.old.items) }
{
    let alloc = *out.allocator();
    let mut hash = Vec::new(alloc);
    write_tlv(&mut hash, 0x06, SHA256.as_slice())?;
    let mut keys = Vec::new(alloc);
    write_tlv(&mut keys, 0x04, key)?;
    let mut content = Vec::new(alloc);
    write_tlv(&mut content, 0x30, hash.as_slice())?;
    write_tlv(&mut content, 0x30, keys.as_slice())?;
    write_tlv(out, 0x30, content.as_slice())
}

/// What is written is read again.
pub fn a_written_catalogue_is_read_again()
    ensures { (key : List ℕ) → length key < 2 ^ 31 → ReadsCatalogue (one_key_text key) one_key_parts }
{}

/// No bytes say two catalogues.
pub fn no_bytes_say_two_catalogues()
    ensures { (bytes : List ℕ) (a b : Parts) → ReadsCatalogue bytes a → ReadsCatalogue bytes b → a ≡ b }
{}
