use crate::{HssKey, SignFault, from_seed};
use hash_kit::{HashAlg, digest};
use lms_verify::hss_verify;
use std::alloc::Global;
use std::test::Fail;

// The bytes 00 to 1f.
const SEED: [u8; 32] = [
    0, 1, 2, 3, 4, 5, 6, 7, 8, 9, 10, 11, 12, 13, 14, 15, 16, 17, 18, 19, 20, 21, 22, 23, 24, 25,
    26, 27, 28, 29, 30, 31,
];

// Whether a public key and the signature of `evidence` by an index have these digests of SHA-256, the signature has this
// many bytes, and it verifies.
fn signs(
    alloc: Global,
    key: &HssKey,
    index: u32,
    size: usize,
    public: &[u8],
    signed: &[u8],
) -> Result<bool, SignFault> {
    let signature = key.sign(alloc, index, b"evidence")?;
    Ok(
        signature.len() == size
            && digest(HashAlg::Sha256, key.public().bytes()).bytes() == public
            && digest(HashAlg::Sha256, &signature).bytes() == signed
            && hss_verify(&key.public(), b"evidence", &signature),
    )
}

// The digests were made by a signer and a verifier in Python, after the algorithms of RFC 8554 and the numbers, seeds and
// randomizers of specs/Hss.antt and specs/Ots.antt.
#[test]
fn signatures_are_those_of_another_signer(rt: HostRuntime) -> Result<(), Fail> {
    let key = from_seed(rt.alloc(), &SEED, 1, 5, 4)?;
    let public = b"\xc9\x27\x92\xc7\x0f\x71\x35\xc2\x3e\xf9\x00\x26\xd6\x9b\x17\xc4\
        \xf4\xf8\x1e\xbe\xfd\x9b\x52\x0c\x7a\xd2\xc2\xf8\x98\xb8\x02\x6d";
    let signed = b"\xbc\xb9\x1b\x58\xc5\xa9\xed\xe9\x15\x30\x5f\x7c\x4d\x79\x8d\xd0\
        \x5a\x94\x7a\xb6\x71\xc4\xcf\x5e\xd0\x26\x4f\xc7\x20\xbe\xa2\x56";
    assert!(rt; signs(rt.alloc(), &key, 18, 1296, public, signed)?);
    let key = from_seed(rt.alloc(), &SEED, 1, 6, 3)?;
    let public = b"\xfa\x2a\x46\x67\x19\x16\x43\xab\x37\x38\xd0\xdb\x79\x71\x60\x6b\
        \xf3\xb4\x13\x6b\x71\xbd\x71\x5e\x15\x59\x89\x57\x04\xc1\x63\xb9";
    let signed = b"\x0b\xf1\xd9\x3c\x10\x0d\xde\xbe\x46\xd2\x67\xd0\x50\x5b\x1d\xcb\
        \xf9\x4a\x2f\xbb\xde\xa7\xfe\x81\xd7\x19\xd1\xf8\x42\xcd\x17\xf6";
    assert!(rt; signs(rt.alloc(), &key, 700, 2512, public, signed)?);
    let key = from_seed(rt.alloc(), &SEED, 2, 5, 1)?;
    let public = b"\x5d\xeb\x2e\x45\x79\x27\x6b\xdf\x72\x44\x1c\x74\x94\x04\x2b\x03\
        \x93\x56\x9f\x37\xed\x94\xa7\xcf\x96\x01\x3c\xc5\x97\x5c\xdc\x8c";
    let signed = b"\xff\xd9\xa1\xb3\x18\xbb\x06\x3a\x7e\xe0\x53\x23\x77\xc4\x8b\xd1\
        \x6a\x74\x7e\xda\xcc\xec\x6a\x7a\xa7\x30\x96\x50\x4f\x2b\x8e\x30";
    assert!(rt; signs(rt.alloc(), &key, 37, 17428, public, signed)?);
    let key = from_seed(rt.alloc(), &SEED, 3, 5, 2)?;
    let public = b"\xe1\x02\x10\xea\x9e\x9e\x3c\xd7\x19\xb6\xfc\xfa\x7f\x90\x11\x5b\
        \x74\xc0\xeb\x7b\x6b\x53\x63\xa3\x9d\xf1\xfd\x32\x80\x6f\xa6\x11";
    let signed = b"\x45\x37\x50\x3f\x21\x2e\xf1\xf4\x86\xcb\x04\x9b\x73\x65\x49\x68\
        \x6c\xda\x94\x64\x73\x32\xbb\xad\x6a\x6a\x64\x6a\x24\xd4\x6b\xf2";
    assert!(rt; signs(rt.alloc(), &key, 5000, 13496, public, signed)?);
    Ok(())
}

#[test]
fn the_last_index_signs_and_the_next_is_exhausted(rt: HostRuntime) -> Result<(), Fail> {
    let key = from_seed(rt.alloc(), &SEED, 2, 5, 3)?;
    let public = b"\xee\x07\x68\x4d\x0f\xc9\xd2\x7c\x0b\xa9\x8b\x31\x95\x56\x25\x31\
        \x03\x64\x96\xef\x39\x81\xfd\x4e\x9a\xe1\x0c\x33\xea\x13\x14\x93";
    let first = b"\xbe\x40\xbf\x70\x9f\x64\x01\xfc\xc4\xb3\xc5\xef\x8e\xdd\xee\xc0\
        \x16\x89\x1e\x78\x71\x3a\x28\x79\xfa\xfc\x28\xd7\x9e\xf9\x40\x85";
    let last = b"\x26\x95\x6c\x20\x9a\x3d\x9a\x45\xa7\x35\x07\xa6\x66\x72\x30\xed\
        \x11\x2a\xed\x2b\x1e\xf3\x26\x2e\x41\xbe\xa4\xfe\xc9\x66\xc7\x40";
    assert_eq!(rt; key.leaves(), 1024);
    assert!(rt; signs(rt.alloc(), &key, 0, 4756, public, first)?);
    assert!(rt; signs(rt.alloc(), &key, 1023, 4756, public, last)?);
    assert!(rt;
        matches!(
            key.sign(rt.alloc(), 1024, b"evidence"),
            Err(SignFault::Exhausted)
        )
    );
    Ok(())
}

#[test]
fn a_signature_with_a_byte_more_or_less_or_a_bit_turned_does_not_verify(
    rt: HostRuntime,
) -> Result<(), Fail> {
    let key = from_seed(rt.alloc(), &SEED, 1, 5, 4)?;
    let mut signature = key.sign(rt.alloc(), 0, b"evidence")?;
    assert_eq!(rt; signature.len(), 1296);
    assert!(rt; hss_verify(&key.public(), b"evidence", &signature));
    let last = signature.pop().expect(&rt, "a byte");
    assert!(rt; !hss_verify(&key.public(), b"evidence", &signature));
    for bit in [1, 2, 4, 8, 16, 32, 64, 128] {
        signature.push(last ^ bit)?;
        assert!(rt; !hss_verify(&key.public(), b"evidence", &signature));
        signature.pop();
    }
    signature.push(last)?;
    signature.push(0)?;
    assert!(rt; !hss_verify(&key.public(), b"evidence", &signature));
    Ok(())
}
