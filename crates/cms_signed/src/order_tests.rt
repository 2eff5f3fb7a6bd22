// Tokens with two pieces that are other than usual, and the first fault of each.
use crate::fault_tests::assert_fault;
use crate::pieces::{CERTIFICATE, Edit, Piece};
use crate::{AttrKind, CmsFault};
use der_values::{DerFault, DerKind};
use std::test::Fail;

const NO_DER_FIRST: &[(&str, Edit, u64, DerKind)] = &[
    (
        "an identifier with a high tag, and version 1",
        Edit {
            first: (Piece::Sid, b"\x9f\x01\x04\x01"),
            second: (Piece::SignerVersion, b"\x02\x01\x01"),
        },
        69,
        DerKind::HighTag,
    ),
    (
        "a message-digest without value",
        Edit {
            first: (
                Piece::First,
                b"\x30\x0d\x06\x09\x2a\x86\x48\x86\xf7\x0d\x01\x09\x04\x31\x00",
            ),
            second: (Piece::MessageDigest, b""),
        },
        121,
        DerKind::Truncated,
    ),
    (
        "a message-digest with two values",
        Edit {
            first: (
                Piece::First,
                b"\x30\x12\x06\x09\x2a\x86\x48\x86\xf7\x0d\x01\x09\x04\x31\x05\x04\x01\x07\x04\x00",
            ),
            second: (Piece::MessageDigest, b""),
        },
        124,
        DerKind::Trailing,
    ),
    (
        "something behind the values",
        Edit {
            first: (
                Piece::First,
                b"\x30\x12\x06\x09\x2a\x86\x48\x86\xf7\x0d\x01\x09\x04\x31\x03\x04\x01\x07\x04\x00",
            ),
            second: (Piece::MessageDigest, b""),
        },
        124,
        DerKind::Trailing,
    ),
    (
        "a certificate's hash that is no octets",
        Edit {
            first: (
                Piece::First,
                b"\x30\x17\x06\x0b\x2a\x86\x48\x86\xf7\x0d\x01\x09\x10\x02\x2f\x31\x08\x30\x06\x30\x04\x30\x02\x03\x00",
            ),
            second: (Piece::Certificate, b""),
        },
        129,
        DerKind::WrongTag,
    ),
    (
        "no certificate",
        Edit {
            first: (
                Piece::First,
                b"\x30\x13\x06\x0b\x2a\x86\x48\x86\xf7\x0d\x01\x09\x10\x02\x2f\x31\x04\x30\x02\x30\x00",
            ),
            second: (Piece::Certificate, b""),
        },
        127,
        DerKind::Truncated,
    ),
    (
        "a certificate's algorithm with two parameters",
        Edit {
            first: (
                Piece::First,
                b"\x30\x20\x06\x0b\x2a\x86\x48\x86\xf7\x0d\x01\x09\x10\x02\x2f\x31\x11\x30\x0f\x30\x0d\x30\x0b\x30\x07\x06\x01\x2a\x05\x00\x05\x00\x04\x00",
            ),
            second: (Piece::Certificate, b""),
        },
        136,
        DerKind::Trailing,
    ),
];

#[test]
fn of_two_faults_the_first_one_of_der_is_named(rt: HostRuntime) -> Result<(), Fail> {
    for &(says, edit, place, kind) in NO_DER_FIRST {
        let fault = CmsFault::Der(DerFault { place, kind });
        assert_fault(&rt, says, &edit, fault)?;
    }
    Ok(())
}

const NO_TOKEN_FIRST: &[(&str, Edit, CmsFault)] = &[
    (
        "no content-type and no message-digest",
        Edit {
            first: (Piece::ContentType, b""),
            second: (Piece::MessageDigest, b""),
        },
        CmsFault::MissingAttr(AttrKind::ContentType),
    ),
    (
        "no message-digest and no signing-certificate",
        Edit {
            first: (Piece::MessageDigest, b""),
            second: (Piece::Certificate, b""),
        },
        CmsFault::MissingAttr(AttrKind::MessageDigest),
    ),
    (
        "no signing-certificate, and another signature",
        Edit {
            first: (Piece::Certificate, b""),
            second: (
                Piece::Algorithm,
                b"\x30\x0b\x06\x09\x60\x86\x48\x01\x65\x03\x04\x02\x01",
            ),
        },
        CmsFault::MissingAttr(AttrKind::SigningCertificate),
    ),
    (
        "attributes in another order",
        Edit {
            first: (Piece::Second, CERTIFICATE),
            second: (Piece::Certificate, b""),
        },
        CmsFault::AttrOrder,
    ),
];

#[test]
fn of_two_faults_the_first_one_of_tokens_is_named(rt: HostRuntime) -> Result<(), Fail> {
    for &(says, edit, fault) in NO_TOKEN_FIRST {
        assert_fault(&rt, says, &edit, fault)?;
    }
    Ok(())
}
