// The digest is that of FIPS 180-4's example.
use crate::stamp_leaves;
use der_values::Bytes;
use hash_kit::HashAlg;
use std::test::Fail;

const ABC: [u8; 32] = [
    0xba, 0x78, 0x16, 0xbf, 0x8f, 0x01, 0xcf, 0xea, 0x41, 0x41, 0x40, 0xde, 0x5d, 0xae, 0x22, 0x23,
    0xb0, 0x03, 0x61, 0xa3, 0x96, 0x17, 0x7a, 0x9c, 0xb4, 0x10, 0xff, 0x61, 0xf2, 0x00, 0x15, 0xad,
];

#[test]
fn a_leaf_is_the_digest_of_its_token(rt: HostRuntime) -> Result<(), Fail> {
    let alloc = rt.alloc();
    let mut tokens = Vec::new(alloc);
    tokens.push(Bytes::from_vec(Vec::from_slice(alloc, b"")?))?;
    tokens.push(Bytes::from_vec(Vec::from_slice(alloc, b"abc")?))?;
    let leaves = stamp_leaves(alloc, HashAlg::Sha256, tokens.as_slice())?;
    assert_eq!(&rt; leaves.as_slice().len(), 2);
    assert_eq!(&rt; leaves.as_slice()[1].bytes(), &ABC[..]);
    Ok(())
}
