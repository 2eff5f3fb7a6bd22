// Groups at their limits. Digests are those of FIPS 180-4's examples, and the node's is computed by another program.
ghost use Rattle.std.specs.Prelude.{◌<◌, length, IfOk};

use crate::{Group, GroupFault, group_node, hash_values};
use der_values::{Bytes, Items};
use hash_kit::HashAlg;
use std::alloc::{AllocError, Global};
use std::test::Fail;

// SHA-256 of `abc`, of the empty text, and of both digests joined, that of `abc` first.
const ABC: [u8; 32] = [
    0xba, 0x78, 0x16, 0xbf, 0x8f, 0x01, 0xcf, 0xea, 0x41, 0x41, 0x40, 0xde, 0x5d, 0xae, 0x22, 0x23,
    0xb0, 0x03, 0x61, 0xa3, 0x96, 0x17, 0x7a, 0x9c, 0xb4, 0x10, 0xff, 0x61, 0xf2, 0x00, 0x15, 0xad,
];

const EMPTY: [u8; 32] = [
    0xe3, 0xb0, 0xc4, 0x42, 0x98, 0xfc, 0x1c, 0x14, 0x9a, 0xfb, 0xf4, 0xc8, 0x99, 0x6f, 0xb9, 0x24,
    0x27, 0xae, 0x41, 0xe4, 0x64, 0x9b, 0x93, 0x4c, 0xa4, 0x95, 0x99, 0x1b, 0x78, 0x52, 0xb8, 0x55,
];

const NODE: [u8; 32] = [
    0x6f, 0x12, 0x90, 0x89, 0x6e, 0xe8, 0x1a, 0x03, 0x49, 0x17, 0x4d, 0x19, 0xf4, 0x47, 0x3d, 0x26,
    0x7a, 0x10, 0x28, 0x9c, 0x40, 0x48, 0x08, 0x61, 0xd5, 0xc4, 0x2a, 0xff, 0xff, 0xbd, 0x79, 0xf9,
];

// So many documents of these sizes, one after another.
fn documents(alloc: Global, sizes: &[usize]) -> Result<Items<Bytes>, AllocError>
    ensures { IfOk result (λ documents. length documents < 100) }
{
    let mut documents = Vec::new(alloc);
    for size in sizes {
        if documents.len() < 99 {
            documents.push(Bytes::from_vec(vec![in alloc; b'd'; *size]?))?;
        }
    }
    Ok(Items::from_vec(documents))
}

#[test]
fn documents_are_a_group_exactly_within_the_limits(rt: HostRuntime) -> Result<(), Fail> {
    let alloc = rt.alloc();
    let many = [0; 65];
    let rows: [(&[usize], Option<GroupFault>); 8] = [
        (&[], Some(GroupFault::NoDocuments)),
        (&[0], None),
        (&many[..64], None),
        (&many, Some(GroupFault::TooMany(65))),
        (&[1_048_576, 1_048_576, 1_048_576, 1_048_576], None),
        (
            &[1, 1_048_577, 1_048_578],
            Some(GroupFault::DocumentLong(1)),
        ),
        (
            &[1_048_576, 1_048_576, 1_048_576, 1_048_576, 1],
            Some(GroupFault::TooLong(4_194_305)),
        ),
        (
            &[1_048_577, 1_048_576, 1_048_576, 1_048_576, 1_048_576],
            Some(GroupFault::DocumentLong(0)),
        ),
    ];
    for &(sizes, fault) in &rows {
        match Group::new(documents(alloc, sizes)?) {
            Ok(group) => {
                assert_eq!(&rt; fault, None);
                assert_eq!(&rt; group.documents().len(), sizes.len());
            }
            Err((back, found)) => {
                assert_eq!(&rt; Some(found), fault);
                assert_eq!(&rt; back.as_slice().len(), sizes.len());
            }
        }
    }
    Ok(())
}

#[test]
fn a_group_has_the_digests_of_its_documents_and_their_node(rt: HostRuntime) -> Result<(), Fail> {
    let alloc = rt.alloc();
    let mut texts = Vec::new(alloc);
    texts.push(Bytes::from_vec(b"".to_vec(alloc)?))?;
    texts.push(Bytes::from_vec(b"abc".to_vec(alloc)?))?;
    let Ok(group) = Group::new(Items::from_vec(texts)) else {
        assert!(&rt; false);
        return Ok(());
    };
    let values = hash_values(alloc, HashAlg::Sha256, &group)?;
    let mut found = Vec::new(alloc);
    for value in values.as_slice() {
        found.extend_from_slice(value.bytes())?;
    }
    assert_eq!(&rt; &found[..found.len().min(32)], EMPTY.as_slice());
    assert_eq!(&rt; &found[found.len().min(32)..], ABC.as_slice());
    let node = group_node(alloc, HashAlg::Sha256, &group)?;
    assert_eq!(&rt; node.bytes(), NODE.as_slice());
    Ok(())
}
