// Leaves, values and lists; the digests are computed by another program.
ghost use Rattle.std.specs.Prelude.{◌<◌, length, IfOk};

use crate::{lists_of, renewed_values, seal_leaf};
use der_values::{Bytes, Items};
use evidence_syntax::{Ats, Chain, sequence_size};
use hash_kit::{HashAlg, HashValue, digest};
use object_groups::Group;
use std::alloc::{AllocError, Global};
use std::test::Fail;

// SHA-256 of the digests of the empty text and of `abc`, joined, that of `abc` first.
const NODE: [u8; 32] = [
    0x6f, 0x12, 0x90, 0x89, 0x6e, 0xe8, 0x1a, 0x03, 0x49, 0x17, 0x4d, 0x19, 0xf4, 0x47, 0x3d, 0x26,
    0x7a, 0x10, 0x28, 0x9c, 0x40, 0x48, 0x08, 0x61, 0xd5, 0xc4, 0x2a, 0xff, 0xff, 0xbd, 0x79, 0xf9,
];

// SHA-256 of the digest of `abc` and that of 30 06 30 04 30 02 30 00, joined: a sequence of one chain of one archive
// time-stamp, which has an empty SEQUENCE as its token.
const LATER: [u8; 32] = [
    0x15, 0x5a, 0x72, 0x84, 0x68, 0xf7, 0x77, 0x47, 0x75, 0xa1, 0x13, 0xd0, 0xc3, 0x62, 0x29, 0xd4,
    0xb6, 0x98, 0x41, 0xae, 0xe7, 0x28, 0x2e, 0xfc, 0x31, 0xcf, 0x32, 0x92, 0x31, 0xae, 0x6f, 0xc8,
];

fn documents(alloc: Global, first: &[u8], second: Option<&[u8]>) -> Result<Items<Bytes>, AllocError>
    ensures { IfOk result (λ documents. length documents < 3) }
{
    let mut documents = Vec::new(alloc);
    documents.push(Bytes::from_vec(Vec::from_slice(alloc, first)?))?;
    if let Some(second) = second {
        documents.push(Bytes::from_vec(Vec::from_slice(alloc, second)?))?;
    }
    Ok(Items::from_vec(documents))
}

fn group(alloc: Global, first: &[u8], second: Option<&[u8]>) -> Result<Group, Fail> {
    let documents = documents(alloc, first, second)?;
    Ok(Group::new(documents).ok().ok_or("they are a group")?)
}

#[test]
fn the_leaf_of_a_group_is_the_node_of_its_digests(rt: HostRuntime) -> Result<(), Fail> {
    let alloc = rt.alloc();
    let one = seal_leaf(alloc, HashAlg::Sha256, &group(alloc, b"abc", None)?)?;
    assert_eq!(&rt; one.bytes(), digest(HashAlg::Sha256, b"abc").bytes());
    let two = seal_leaf(alloc, HashAlg::Sha256, &group(alloc, b"", Some(b"abc"))?)?;
    assert_eq!(&rt; two.bytes(), &NODE[..]);
    Ok(())
}

fn only(values: &[HashValue]) -> Result<HashValue, Fail> {
    match values {
        [value] => Ok(*value),
        _ => Err(Fail::from("there is one document")),
    }
}

// The value of the one document in the chain after these, whose sequence is short enough to be written.
fn value(alloc: Global, group: &Group, older: &[Chain<'_>]) -> Result<HashValue, Fail> {
    match sequence_size(older) {
        Some(_size) => {
            let values = renewed_values(alloc, HashAlg::Sha256, group, older)?;
            only(values.as_slice())
        }
        None => Err(Fail::from("the sequence is too long")),
    }
}

#[test]
fn a_later_chain_covers_the_chains_before_it(rt: HostRuntime) -> Result<(), Fail> {
    let alloc = rt.alloc();
    let mut stamps = Vec::new(alloc);
    stamps.push(Ats {
        algorithm: None,
        attributes: None,
        lists: None,
        token: b"\x30\x00",
    })?;
    let mut older = Vec::new(alloc);
    older.push(Chain {
        stamps: Items::from_vec(stamps),
    })?;
    let group = group(alloc, b"abc", None)?;
    let later = value(alloc, &group, older.as_slice())?;
    assert_eq!(&rt; later.bytes(), &LATER[..]);
    let first = value(alloc, &group, &[])?;
    assert_eq!(&rt; first.bytes(), digest(HashAlg::Sha256, b"abc").bytes());
    Ok(())
}
