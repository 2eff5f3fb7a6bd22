// Tokens that are written, as another program writes them.
ghost use Rattle.std.specs.Prelude.{◌≡◌, ◌⊎◌, ◌+◌, ◌^◌, ◌<◌, length};

use crate::pieces::{CERTIFICATE_HASH, Edit, Piece, token_of};
use crate::tests::{KEY_IDENTIFIER, SIGNED, TOKEN, assert_bytes};
use crate::{Unsigned, attrs_to_sign, write_signed};
use der_values::{Bytes, write_tlv, zeros};
use hash_kit::{HashAlg, HashValue, digest};
use std::alloc::{AllocError, Global};
use std::test::Fail;

// The SHA-256 of a token of full size that the same program put together.
const FULL_SIZE: &[u8] = b"\
    \x37\xe1\x72\x23\xef\x58\xe9\xfd\x2e\x96\x7f\xca\xd1\x23\x00\x12\x52\x6c\x47\x6d\x59\x59\x19\xfd\
    \x07\xe8\xce\x5c\xe8\x1f\x2b\xce";

const SIGNATURE: &[u8] = b"\x01\x02\x03\x04\x05";

// What is to be signed of these parts, and the token with this signature. The certificate's hash is 40 41 42 ..
fn written(
    alloc: Global,
    content: &[u8],
    tag: u8,
    id: &[u8],
    signature: &[u8],
) -> Result<(Vec<u8>, Vec<u8>), AllocError>
    requires tag { (tag ≡ 0x30) ⊎ (tag ≡ 0x80) }
    requires short { length content.now + length id.now + length signature.now < 2 ^ 31 }
{
    let mut sid = Vec::new(alloc);
    write_tlv(&mut sid, tag, id)?;
    let parts = Unsigned {
        content: Bytes::from_vec(Vec::from_slice(alloc, content)?),
        sid: Bytes::from_vec(sid),
        cert_hash: HashValue::of(CERTIFICATE_HASH),
    };
    let bytes = attrs_to_sign(alloc, &parts)?;
    let token = write_signed(alloc, &parts, signature)?;
    Ok((bytes, token))
}

#[test]
fn the_token_of_another_program_is_written(rt: HostRuntime) -> Result<(), Fail> {
    let (bytes, token) = written(rt.alloc(), b"abc", 0x80, KEY_IDENTIFIER, SIGNATURE)?;
    assert_bytes(&rt, &token, TOKEN);
    assert_bytes(&rt, &bytes, SIGNED);
    Ok(())
}

const WITH_ISSUER: Edit = Edit {
    first: (Piece::SignerVersion, b"\x02\x01\x01"),
    second: (
        Piece::Sid,
        b"\x30\x14\x00\x01\x02\x03\x04\x05\x06\x07\x08\x09\x0a\x0b\x0c\x0d\x0e\x0f\x10\x11\x12\x13",
    ),
};

#[test]
fn a_signer_with_issuer_and_serial_number_is_written_in_version_1(
    rt: HostRuntime,
) -> Result<(), Fail> {
    let (_, token) = written(rt.alloc(), b"abc", 0x30, KEY_IDENTIFIER, SIGNATURE)?;
    assert_bytes(&rt, &token, &token_of(rt.alloc(), &WITH_ISSUER)?);
    Ok(())
}

// A TSTInfo has 82 octets, a signature of two levels and 4 bits a digit 4,756.
fn of_full_size(alloc: Global) -> Result<(Vec<u8>, Vec<u8>), AllocError> {
    let info = zeros(alloc, 82)?;
    let signature = zeros(alloc, 4_756)?;
    written(alloc, &info, 0x80, KEY_IDENTIFIER, &signature)
}

#[test]
fn a_token_of_full_size_has_its_length_and_its_digest(rt: HostRuntime) -> Result<(), Fail> {
    let (bytes, token) = of_full_size(rt.alloc())?;
    assert!(rt; bytes.len() == 137);
    assert!(rt; token.len() == 5_100);
    assert_bytes(&rt, digest(HashAlg::Sha256, &token).bytes(), FULL_SIZE);
    Ok(())
}
