// Tokens with a piece that is other than usual, and the first fault of each.
use crate::pieces::{CONTENT_TYPE, Edit, MESSAGE_DIGEST, Piece, USUAL, token_of};
use crate::{AttrKind, CmsFault, read_signed};
use der_values::{DerFault, DerKind};
use std::process::Abort;
use std::test::Fail;

/// The token with these pieces has this fault.
pub(crate) fn assert_fault(
    rt: &(impl Abort + AllocGlobal),
    says: &str,
    edit: &Edit,
    fault: CmsFault,
) -> Result<(), Fail> {
    let token = token_of(rt.alloc(), edit)?;
    assert!(rt; read_signed(&token).err() == Some(fault), "{says}");
    Ok(())
}

fn with(piece: Piece, bytes: &'static [u8]) -> Edit {
    Edit {
        first: (piece, bytes),
        ..USUAL
    }
}

const NO_DER: &[(&str, Piece, &[u8], u64, DerKind)] = &[
    (
        "a content that is no identifier",
        Piece::Type,
        b"\x06\x02\x80\x01",
        3,
        DerKind::BadValue,
    ),
    (
        "a version with an excess octet",
        Piece::Version,
        b"\x02\x02\x00\x03",
        21,
        DerKind::NotMinimal,
    ),
    (
        "a version that is no INTEGER",
        Piece::Version,
        b"\x04\x01\x03",
        21,
        DerKind::WrongTag,
    ),
    (
        "a digest algorithm that is none",
        Piece::Algorithms,
        b"\x31\x02\x31\x00",
        25,
        DerKind::WrongTag,
    ),
    (
        "a digest algorithm with two parameters",
        Piece::Algorithms,
        b"\x31\x09\x30\x07\x06\x01\x2a\x05\x00\x05\x00",
        33,
        DerKind::Trailing,
    ),
    (
        "content that is not there",
        Piece::Content,
        b"\x30\x0d\x06\x0b\x2a\x86\x48\x86\xf7\x0d\x01\x09\x10\x01\x04",
        53,
        DerKind::Truncated,
    ),
    (
        "content in a constructed string",
        Piece::Content,
        b"\x30\x16\x06\x0b\x2a\x86\x48\x86\xf7\x0d\x01\x09\x10\x01\x04\xa0\x07\x24\x05\x04\x03\x61\x62\x63",
        56,
        DerKind::WrongTag,
    ),
    (
        "two contents",
        Piece::Content,
        b"\x30\x16\x06\x0b\x2a\x86\x48\x86\xf7\x0d\x01\x09\x10\x01\x04\xa0\x07\x04\x03\x61\x62\x63\x04\x00",
        61,
        DerKind::Trailing,
    ),
    (
        "something behind the content",
        Piece::Content,
        b"\x30\x16\x06\x0b\x2a\x86\x48\x86\xf7\x0d\x01\x09\x10\x01\x04\xa0\x05\x04\x03\x61\x62\x63\x04\x00",
        61,
        DerKind::Trailing,
    ),
    (
        "revocation lists before certificates",
        Piece::Certificates,
        b"\xa1\x00\xa0\x00",
        63,
        DerKind::WrongTag,
    ),
    (
        "two signers, the second of them cut",
        Piece::MoreSigners,
        b"\x30\x05",
        266,
        DerKind::Truncated,
    ),
    (
        "a signer's version with an excess octet",
        Piece::SignerVersion,
        b"\x02\x02\x00\x03",
        67,
        DerKind::NotMinimal,
    ),
    (
        "another digest, and something behind its parameters",
        Piece::Digest,
        b"\x30\x07\x06\x01\x2a\x05\x00\x05\x00",
        99,
        DerKind::Trailing,
    ),
    (
        "a content-type without value",
        Piece::ContentType,
        b"\x30\x0d\x06\x09\x2a\x86\x48\x86\xf7\x0d\x01\x09\x03\x31\x00",
        121,
        DerKind::Truncated,
    ),
    (
        "a content-type with two values",
        Piece::ContentType,
        b"\x30\x1c\x06\x09\x2a\x86\x48\x86\xf7\x0d\x01\x09\x03\x31\x0f\x06\x0b\x2a\x86\x48\x86\xf7\x0d\x01\x09\x10\x01\x04\x05\x00",
        136,
        DerKind::Trailing,
    ),
    (
        "a signature that is no octets",
        Piece::Signature,
        b"\x03\x01\x00",
        257,
        DerKind::WrongTag,
    ),
    (
        "unsigned attributes before the signature",
        Piece::Signature,
        b"\xa1\x00\x04\x01\x01",
        257,
        DerKind::WrongTag,
    ),
    (
        "two lots of unsigned attributes",
        Piece::Unsigned,
        b"\xa1\x00\xa1\x00",
        266,
        DerKind::Trailing,
    ),
    (
        "something behind the signers",
        Piece::MoreData,
        b"\xa1\x00",
        264,
        DerKind::Trailing,
    ),
    (
        "two lots of signed data",
        Piece::MoreExplicit,
        b"\x30\x00",
        264,
        DerKind::Trailing,
    ),
    (
        "something behind the signed data",
        Piece::MoreInfo,
        b"\x05\x00",
        264,
        DerKind::Trailing,
    ),
    (
        "something behind the token",
        Piece::More,
        b"\x00",
        264,
        DerKind::Trailing,
    ),
];

#[test]
fn a_piece_that_is_no_der_is_named_with_its_place(rt: HostRuntime) -> Result<(), Fail> {
    for &(says, piece, bytes, place, kind) in NO_DER {
        let fault = CmsFault::Der(DerFault { place, kind });
        assert_fault(&rt, says, &with(piece, bytes), fault)?;
    }
    Ok(())
}

const NO_TOKEN: &[(&str, Piece, &[u8], CmsFault)] = &[
    (
        "another content",
        Piece::Type,
        b"\x06\x09\x2a\x86\x48\x86\xf7\x0d\x01\x07\x01",
        CmsFault::NotSignedData,
    ),
    (
        "version 1",
        Piece::Version,
        b"\x02\x01\x01",
        CmsFault::Version,
    ),
    (
        "content of another type",
        Piece::Content,
        b"\x30\x0a\x06\x01\x2a\xa0\x05\x04\x03\x61\x62\x63",
        CmsFault::ContentType,
    ),
    (
        "two signers",
        Piece::MoreSigners,
        b"\x30\x00",
        CmsFault::Signers(2),
    ),
    (
        "version 1 with a key identifier",
        Piece::SignerVersion,
        b"\x02\x01\x01",
        CmsFault::SignerVersion,
    ),
    (
        "version 3 with issuer and serial number",
        Piece::Sid,
        b"\x30\x00",
        CmsFault::SignerVersion,
    ),
    (
        "an identifier of another kind",
        Piece::Sid,
        b"\xa1\x04\x01\x02\x03\x04",
        CmsFault::SignerVersion,
    ),
    (
        "SHA-512 as digest",
        Piece::Digest,
        b"\x30\x0b\x06\x09\x60\x86\x48\x01\x65\x03\x04\x02\x03",
        CmsFault::DigestAlg,
    ),
    (
        "SHA-256 with other parameters",
        Piece::Digest,
        b"\x30\x0e\x06\x09\x60\x86\x48\x01\x65\x03\x04\x02\x01\x05\x01\x00",
        CmsFault::DigestAlg,
    ),
    (
        "two content-types",
        Piece::Second,
        CONTENT_TYPE,
        CmsFault::DoubleAttr(AttrKind::ContentType),
    ),
    (
        "two message-digests",
        Piece::Third,
        MESSAGE_DIGEST,
        CmsFault::DoubleAttr(AttrKind::MessageDigest),
    ),
    (
        "two signing-certificates",
        Piece::First,
        b"\x30\x18\x06\x0b\x2a\x86\x48\x86\xf7\x0d\x01\x09\x10\x02\x2f\x31\x09\x30\x07\x30\x05\x30\x03\x04\x01\x07",
        CmsFault::DoubleAttr(AttrKind::SigningCertificate),
    ),
    (
        "a second content-type without values",
        Piece::Second,
        b"\x30\x1b\x06\x09\x2a\x86\x48\x86\xf7\x0d\x01\x09\x03\x00\x00\x00\x00\x00\x00\x00\x00\x00\x00\x00\x00\x00\x00\x00\x00",
        CmsFault::DoubleAttr(AttrKind::ContentType),
    ),
    (
        "a second content-type that is out of order",
        Piece::Last,
        CONTENT_TYPE,
        CmsFault::AttrOrder,
    ),
    (
        "an unknown attribute that is out of order",
        Piece::Last,
        b"\x30\x03\x06\x01\x80",
        CmsFault::AttrOrder,
    ),
    (
        "a content-type of another type",
        Piece::ContentType,
        b"\x30\x10\x06\x09\x2a\x86\x48\x86\xf7\x0d\x01\x09\x03\x31\x03\x06\x01\x2a",
        CmsFault::ContentType,
    ),
    (
        "HSS/LMS with NULL",
        Piece::Algorithm,
        b"\x30\x0f\x06\x0b\x2a\x86\x48\x86\xf7\x0d\x01\x09\x10\x03\x11\x05\x00",
        CmsFault::SignatureAlg,
    ),
    (
        "another signature",
        Piece::Algorithm,
        b"\x30\x0b\x06\x09\x60\x86\x48\x01\x65\x03\x04\x02\x01",
        CmsFault::SignatureAlg,
    ),
];

#[test]
fn a_piece_that_no_token_has_is_named(rt: HostRuntime) -> Result<(), Fail> {
    for &(says, piece, bytes, fault) in NO_TOKEN {
        assert_fault(&rt, says, &with(piece, bytes), fault)?;
    }
    Ok(())
}
