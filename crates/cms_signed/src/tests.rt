// Tokens that are read, and the one that another program put together.
use crate::pieces::{CERTIFICATE_HASH, DIGEST_OF_ABC, Edit, Piece, USUAL, token_of};
use crate::{CmsFault, Signed, read_signed, signed_bytes};
use der_values::{DerFault, DerKind};
use std::process::Abort;
use std::test::Fail;

// A token over `abc`, put together by a program of its own (Python).
pub(crate) const TOKEN: &[u8] = b"\
    \x30\x82\x01\x04\x06\x09\x2a\x86\x48\x86\xf7\x0d\x01\x07\x02\xa0\x81\xf6\x30\x81\xf3\x02\x01\x03\
    \x31\x0d\x30\x0b\x06\x09\x60\x86\x48\x01\x65\x03\x04\x02\x01\x30\x14\x06\x0b\x2a\x86\x48\x86\xf7\
    \x0d\x01\x09\x10\x01\x04\xa0\x05\x04\x03\x61\x62\x63\x31\x81\xc8\x30\x81\xc5\x02\x01\x03\x80\x14\
    \x00\x01\x02\x03\x04\x05\x06\x07\x08\x09\x0a\x0b\x0c\x0d\x0e\x0f\x10\x11\x12\x13\x30\x0b\x06\x09\
    \x60\x86\x48\x01\x65\x03\x04\x02\x01\xa0\x81\x86\x30\x1a\x06\x09\x2a\x86\x48\x86\xf7\x0d\x01\x09\
    \x03\x31\x0d\x06\x0b\x2a\x86\x48\x86\xf7\x0d\x01\x09\x10\x01\x04\x30\x2f\x06\x09\x2a\x86\x48\x86\
    \xf7\x0d\x01\x09\x04\x31\x22\x04\x20\xba\x78\x16\xbf\x8f\x01\xcf\xea\x41\x41\x40\xde\x5d\xae\x22\
    \x23\xb0\x03\x61\xa3\x96\x17\x7a\x9c\xb4\x10\xff\x61\xf2\x00\x15\xad\x30\x37\x06\x0b\x2a\x86\x48\
    \x86\xf7\x0d\x01\x09\x10\x02\x2f\x31\x28\x30\x26\x30\x24\x30\x22\x04\x20\x40\x41\x42\x43\x44\x45\
    \x46\x47\x48\x49\x4a\x4b\x4c\x4d\x4e\x4f\x50\x51\x52\x53\x54\x55\x56\x57\x58\x59\x5a\x5b\x5c\x5d\
    \x5e\x5f\x30\x0d\x06\x0b\x2a\x86\x48\x86\xf7\x0d\x01\x09\x10\x03\x11\x04\x05\x01\x02\x03\x04\x05";

// What is signed of it, and its signer's identifier without its header.
pub(crate) const SIGNED: &[u8] = b"\
    \x31\x81\x86\x30\x1a\x06\x09\x2a\x86\x48\x86\xf7\x0d\x01\x09\x03\x31\x0d\x06\x0b\x2a\x86\x48\x86\
    \xf7\x0d\x01\x09\x10\x01\x04\x30\x2f\x06\x09\x2a\x86\x48\x86\xf7\x0d\x01\x09\x04\x31\x22\x04\x20\
    \xba\x78\x16\xbf\x8f\x01\xcf\xea\x41\x41\x40\xde\x5d\xae\x22\x23\xb0\x03\x61\xa3\x96\x17\x7a\x9c\
    \xb4\x10\xff\x61\xf2\x00\x15\xad\x30\x37\x06\x0b\x2a\x86\x48\x86\xf7\x0d\x01\x09\x10\x02\x2f\x31\
    \x28\x30\x26\x30\x24\x30\x22\x04\x20\x40\x41\x42\x43\x44\x45\x46\x47\x48\x49\x4a\x4b\x4c\x4d\x4e\
    \x4f\x50\x51\x52\x53\x54\x55\x56\x57\x58\x59\x5a\x5b\x5c\x5d\x5e\x5f";

pub(crate) const KEY_IDENTIFIER: &[u8] = b"\
    \x00\x01\x02\x03\x04\x05\x06\x07\x08\x09\x0a\x0b\x0c\x0d\x0e\x0f\x10\x11\x12\x13";

pub(crate) fn assert_bytes(rt: &(impl Abort + AllocGlobal), found: &[u8], expected: &[u8]) {
    assert_eq!(rt; found, expected);
}

fn is_usual(signed: &Signed<'_>) -> bool {
    signed.content == b"abc".as_slice()
        && signed.message_digest == DIGEST_OF_ABC
        && signed.cert_hash == Some(CERTIFICATE_HASH)
        && signed.signature == b"\x01\x02\x03\x04\x05".as_slice()
}

#[test]
fn a_token_of_another_program_has_the_usual_pieces(rt: HostRuntime) -> Result<(), Fail> {
    assert_bytes(&rt, &token_of(rt.alloc(), &USUAL)?, TOKEN);
    Ok(())
}

#[test]
fn a_token_of_another_program_is_read(rt: HostRuntime) -> Result<(), Fail> {
    let signed = read_signed(TOKEN).ok().ok_or("a token")?;
    assert!(rt; is_usual(&signed));
    assert!(rt; TOKEN.get(70..92) == Some(signed.sid));
    assert!(rt; TOKEN.get(105..242) == Some(signed.attrs));
    assert_bytes(&rt, &signed_bytes(rt.alloc(), &signed)?, SIGNED);
    Ok(())
}

fn cut_at(len: usize) -> Option<CmsFault> {
    let kind = DerKind::Truncated;
    let place = len as u64;
    Some(CmsFault::Der(DerFault { place, kind }))
}

#[test]
fn a_token_is_cut_at_every_length(rt: HostRuntime) {
    for len in 0..TOKEN.len() {
        assert!(rt; read_signed(&TOKEN[..len]).err() == cut_at(len), "{len}");
    }
}

const FOREIGN: &[(&str, Edit)] = &[
    (
        "certificates and revocation lists",
        Edit {
            first: (Piece::Certificates, b"\xa0\x03\xff\xff\xff\xa1\x01\x80"),
            second: (Piece::More, b""),
        },
    ),
    (
        "revocation lists alone",
        Edit {
            first: (Piece::Certificates, b"\xa1\x00"),
            second: (Piece::More, b""),
        },
    ),
    (
        "no digest algorithms",
        Edit {
            first: (Piece::Algorithms, b"\x31\x00"),
            second: (Piece::More, b""),
        },
    ),
    (
        "several digest algorithms",
        Edit {
            first: (
                Piece::Algorithms,
                b"\x31\x14\x30\x0d\x06\x09\x60\x86\x48\x01\x65\x03\x04\x02\x03\x05\x00\x30\x03\x06\x01\x2a",
            ),
            second: (Piece::More, b""),
        },
    ),
    (
        "SHA-256 with NULL",
        Edit {
            first: (
                Piece::Digest,
                b"\x30\x0d\x06\x09\x60\x86\x48\x01\x65\x03\x04\x02\x01\x05\x00",
            ),
            second: (Piece::More, b""),
        },
    ),
    (
        "unsigned attributes",
        Edit {
            first: (Piece::Unsigned, b"\xa1\x02\x9f\x80"),
            second: (Piece::More, b""),
        },
    ),
    (
        "attributes of other kinds",
        Edit {
            first: (
                Piece::First,
                b"\x30\x05\x06\x01\x2a\x31\x00\x30\x05\x06\x01\x2a\x31\x00",
            ),
            second: (
                Piece::Second,
                b"\x30\x1b\x06\x01\x2a\x31\x16\x9f\x80\x00\x00\x00\x00\x00\x00\x00\x00\x00\x00\x00\x00\x00\x00\x00\x00\x00\x00\x00\x00",
            ),
        },
    ),
    (
        "a certificate by SHA-256 with NULL",
        Edit {
            first: (
                Piece::Last,
                b"\x30\x46\x06\x0b\x2a\x86\x48\x86\xf7\x0d\x01\x09\x10\x02\x2f\x31\x37\x30\x35\x30\x33\x30\x31\x30\x0d\x06\x09\x60\x86\x48\x01\x65\x03\x04\x02\x01\x05\x00\x04\x20\x40\x41\x42\x43\x44\x45\x46\x47\x48\x49\x4a\x4b\x4c\x4d\x4e\x4f\x50\x51\x52\x53\x54\x55\x56\x57\x58\x59\x5a\x5b\x5c\x5d\x5e\x5f",
            ),
            second: (Piece::Certificate, b""),
        },
    ),
    (
        "several certificates, and policies",
        Edit {
            first: (
                Piece::Last,
                b"\x30\x3a\x06\x0b\x2a\x86\x48\x86\xf7\x0d\x01\x09\x10\x02\x2f\x31\x2b\x30\x29\x30\x26\x30\x23\x04\x20\x40\x41\x42\x43\x44\x45\x46\x47\x48\x49\x4a\x4b\x4c\x4d\x4e\x4f\x50\x51\x52\x53\x54\x55\x56\x57\x58\x59\x5a\x5b\x5c\x5d\x5e\x5f\xff\xff\xff",
            ),
            second: (Piece::Certificate, b""),
        },
    ),
    (
        "issuer and serial number with version 1",
        Edit {
            first: (Piece::SignerVersion, b"\x02\x01\x01"),
            second: (Piece::Sid, b"\x30\x02\xff\x80"),
        },
    ),
];

#[test]
fn foreign_tokens_are_read(rt: HostRuntime) -> Result<(), Fail> {
    for (says, edit) in FOREIGN {
        let token = token_of(rt.alloc(), edit)?;
        let is_read = read_signed(&token).is_ok_and(|s: Signed<'_>| is_usual(&s));
        assert!(rt; is_read, "{says}");
    }
    Ok(())
}

// A signing-certificate by SHA-512, with one octet as its hash, before none.
const BY_SHA512: Edit = Edit {
    first: (
        Piece::Second,
        b"\x30\x25\x06\x0b\x2a\x86\x48\x86\xf7\x0d\x01\x09\x10\x02\x2f\x31\x16\x30\x14\x30\x12\x30\x10\x30\x0b\x06\x09\x60\x86\x48\x01\x65\x03\x04\x02\x03\x04\x01\x07",
    ),
    second: (Piece::Certificate, b""),
};

#[test]
fn a_certificate_hash_of_another_algorithm_does_not_count(rt: HostRuntime) -> Result<(), Fail> {
    let token = token_of(rt.alloc(), &BY_SHA512)?;
    let signed = read_signed(&token).ok().ok_or("a token")?;
    assert!(rt; signed.cert_hash.is_none());
    Ok(())
}
