ghost use Rattle.std.specs.Prelude.{◌≡◌, ◌≤◌, [], ◌∷◌, length};
ghost use Rattle.hash_kit.specs.Algorithm.{oid_of};

use super::*;
use civil_moment::{Moment, TimeFault};
use der_values::{AlgName, DerFault, DerKind};
use hash_kit::{HashAlg, digest};
use std::alloc::{AllocError, Global};
use std::test::Fail;

// A request for the SHA-256 of `abc` with nonce 3.
const REQUEST: [u8; 57] = [
    0x30, 0x37, 0x02, 0x01, 0x01, 0x30, 0x2f, 0x30, 0x0b, 0x06, 0x09, 0x60, 0x86, 0x48, 0x01, 0x65,
    0x03, 0x04, 0x02, 0x01, 0x04, 0x20, 0xba, 0x78, 0x16, 0xbf, 0x8f, 0x01, 0xcf, 0xea, 0x41, 0x41,
    0x40, 0xde, 0x5d, 0xae, 0x22, 0x23, 0xb0, 0x03, 0x61, 0xa3, 0x96, 0x17, 0x7a, 0x9c, 0xb4, 0x10,
    0xff, 0x61, 0xf2, 0x00, 0x15, 0xad, 0x02, 0x01, 0x03,
];

// An info for the same, under policy 2.999.1, with serial number 1, of 2026-01-05 12:00.
const INFO: [u8; 82] = [
    0x30, 0x50, 0x02, 0x01, 0x01, 0x06, 0x03, 0x88, 0x37, 0x01, 0x30, 0x2f, 0x30, 0x0b, 0x06, 0x09,
    0x60, 0x86, 0x48, 0x01, 0x65, 0x03, 0x04, 0x02, 0x01, 0x04, 0x20, 0xba, 0x78, 0x16, 0xbf, 0x8f,
    0x01, 0xcf, 0xea, 0x41, 0x41, 0x40, 0xde, 0x5d, 0xae, 0x22, 0x23, 0xb0, 0x03, 0x61, 0xa3, 0x96,
    0x17, 0x7a, 0x9c, 0xb4, 0x10, 0xff, 0x61, 0xf2, 0x00, 0x15, 0xad, 0x02, 0x01, 0x01, 0x18, 0x0f,
    0x32, 0x30, 0x32, 0x36, 0x30, 0x31, 0x30, 0x35, 0x31, 0x32, 0x30, 0x30, 0x30, 0x30, 0x5a, 0x02,
    0x01, 0x03,
];

// `openssl ts -query -data abc -sha256 -cert -tspolicy 1.2.3.4.1` of OpenSSL 3.0.19.
const OPENSSL_REQUEST: [u8; 76] = [
    0x30, 0x4a, 0x02, 0x01, 0x01, 0x30, 0x31, 0x30, 0x0d, 0x06, 0x09, 0x60, 0x86, 0x48, 0x01, 0x65,
    0x03, 0x04, 0x02, 0x01, 0x05, 0x00, 0x04, 0x20, 0xba, 0x78, 0x16, 0xbf, 0x8f, 0x01, 0xcf, 0xea,
    0x41, 0x41, 0x40, 0xde, 0x5d, 0xae, 0x22, 0x23, 0xb0, 0x03, 0x61, 0xa3, 0x96, 0x17, 0x7a, 0x9c,
    0xb4, 0x10, 0xff, 0x61, 0xf2, 0x00, 0x15, 0xad, 0x06, 0x04, 0x2a, 0x03, 0x04, 0x01, 0x02, 0x09,
    0x00, 0xd3, 0xca, 0xb3, 0x6e, 0xba, 0x0b, 0x52, 0x9c, 0x01, 0x01, 0xff,
];

// The TSTInfo of the reply to it, with accuracy, ordering and tsa.
const OPENSSL_INFO: [u8; 126] = [
    0x30, 0x7c, 0x02, 0x01, 0x01, 0x06, 0x04, 0x2a, 0x03, 0x04, 0x01, 0x30, 0x31, 0x30, 0x0d, 0x06,
    0x09, 0x60, 0x86, 0x48, 0x01, 0x65, 0x03, 0x04, 0x02, 0x01, 0x05, 0x00, 0x04, 0x20, 0xba, 0x78,
    0x16, 0xbf, 0x8f, 0x01, 0xcf, 0xea, 0x41, 0x41, 0x40, 0xde, 0x5d, 0xae, 0x22, 0x23, 0xb0, 0x03,
    0x61, 0xa3, 0x96, 0x17, 0x7a, 0x9c, 0xb4, 0x10, 0xff, 0x61, 0xf2, 0x00, 0x15, 0xad, 0x02, 0x01,
    0x02, 0x18, 0x0f, 0x32, 0x30, 0x32, 0x36, 0x31, 0x32, 0x30, 0x31, 0x30, 0x30, 0x34, 0x37, 0x31,
    0x38, 0x5a, 0x30, 0x0a, 0x02, 0x01, 0x01, 0x80, 0x02, 0x01, 0xf4, 0x81, 0x01, 0x64, 0x01, 0x01,
    0xff, 0x02, 0x09, 0x00, 0xd3, 0xca, 0xb3, 0x6e, 0xba, 0x0b, 0x52, 0x9c, 0xa0, 0x10, 0xa4, 0x0e,
    0x30, 0x0c, 0x31, 0x0a, 0x30, 0x08, 0x06, 0x03, 0x55, 0x04, 0x03, 0x0c, 0x01, 0x54,
];

// The reply of a server that does not take SHA-256: status 2 with a text and a failure.
const OPENSSL_REJECTION: [u8; 57] = [
    0x30, 0x37, 0x30, 0x35, 0x02, 0x01, 0x02, 0x30, 0x2c, 0x0c, 0x2a, 0x4d, 0x65, 0x73, 0x73, 0x61,
    0x67, 0x65, 0x20, 0x64, 0x69, 0x67, 0x65, 0x73, 0x74, 0x20, 0x61, 0x6c, 0x67, 0x6f, 0x72, 0x69,
    0x74, 0x68, 0x6d, 0x20, 0x69, 0x73, 0x20, 0x6e, 0x6f, 0x74, 0x20, 0x73, 0x75, 0x70, 0x70, 0x6f,
    0x72, 0x74, 0x65, 0x64, 0x2e, 0x03, 0x02, 0x07, 0x80,
];

const OPENSSL_NONCE: &[u8] = &[0x00, 0xd3, 0xca, 0xb3, 0x6e, 0xba, 0x0b, 0x52, 0x9c];

fn at(place: u64, kind: TstKind) -> Option<TstFault> {
    Some(TstFault { place, kind })
}

fn der(place: u64, kind: DerKind) -> Option<TstFault> {
    at(place, TstKind::Der(kind))
}

// References of one struct have one lifetime, so they come as arguments.
fn request_bytes<'a>(
    oid: &'a [u8],
    imprint: &'a [u8],
    nonce: &'a [u8],
    alloc: Global,
) -> Result<Vec<u8>, AllocError>
    requires oid { oid.now ≡ oid_of HashAlg.Sha256 }
    requires imprint { length imprint.now ≤ 64 }
    requires nonce { nonce.now ≡ 3 ∷ [] }
{
    let hash = AlgName { oid, params: None };
    let request = StampRequest {
        hash,
        imprint,
        nonce: Some(nonce),
    };
    write_request(alloc, &request)
}

#[test]
fn the_request_for_abc_has_57_bytes_and_is_read_again(rt: HostRuntime) -> Result<(), Fail> {
    let imprint = digest(HashAlg::Sha256, b"abc");
    let bytes = request_bytes(HashAlg::Sha256.oid(), imprint.bytes(), &[3], rt.alloc())?;
    assert_eq!(rt; bytes.as_slice(), REQUEST.as_slice());
    let read = read_request(bytes.as_slice())
        .ok()
        .ok_or("it is a request")?;
    assert_eq!(rt; read.hash.oid, HashAlg::Sha256.oid());
    assert!(rt; read.hash.params.is_none());
    assert_eq!(rt; read.imprint, &REQUEST[22..54]);
    assert_eq!(rt; read.nonce, Some([3].as_slice()));
    Ok(())
}

// The same for an info under policy 2.999.1.
fn info_bytes<'a>(
    policy: &'a [u8],
    oid: &'a [u8],
    imprint: &'a [u8],
    serial: &'a [u8],
    alloc: Global,
) -> Result<Vec<u8>, AllocError>
    requires policy { policy.now ≡ 0x88 ∷ 0x37 ∷ 0x01 ∷ [] }
    requires oid { oid.now ≡ oid_of HashAlg.Sha256 }
    requires imprint { length imprint.now ≤ 64 }
    requires serial { serial.now ≡ 1 ∷ [] }
{
    let info = TstInfo {
        policy,
        hash: AlgName { oid, params: None },
        imprint,
        serial,
        time: Moment {
            seconds: 1_767_614_400,
            nanos: 0,
        },
        ordering: true,
        nonce: None,
    };
    write_tst(alloc, &info)
}

#[test]
fn an_info_is_written_and_read_again(rt: HostRuntime) -> Result<(), Fail> {
    let imprint = digest(HashAlg::Sha256, b"abc");
    let bytes = info_bytes(
        &[0x88, 0x37, 0x01],
        HashAlg::Sha256.oid(),
        imprint.bytes(),
        &[1],
        rt.alloc(),
    )?;
    // The info above with ordering TRUE where the nonce is.
    let expected = patched(rt.alloc(), &INFO, &[(79, 0x01), (80, 0x01), (81, 0xff)])?;
    assert_eq!(rt; bytes.as_slice(), expected.as_slice());
    let read = read_tst(bytes.as_slice()).ok().ok_or("it is an info")?;
    assert_eq!(rt; read.policy, [0x88, 0x37, 0x01].as_slice());
    assert_eq!(rt; read.serial, [1].as_slice());
    assert_eq!(rt; (read.time.seconds, read.time.nanos), (1_767_614_400, 0));
    assert!(rt; read.ordering);
    assert_eq!(rt; read.nonce, None);
    Ok(())
}

#[test]
fn what_openssl_writes_is_read_by_its_named_parts(rt: HostRuntime) -> Result<(), Fail> {
    let request = read_request(&OPENSSL_REQUEST)
        .ok()
        .ok_or("it is a request")?;
    assert_eq!(rt; request.hash.oid, HashAlg::Sha256.oid());
    assert_eq!(rt; request.hash.params, Some([0x05, 0x00].as_slice()));
    assert_eq!(rt; request.imprint, &REQUEST[22..54]);
    assert_eq!(rt; request.nonce, Some(OPENSSL_NONCE));
    let info = read_tst(&OPENSSL_INFO).ok().ok_or("it is an info")?;
    assert_eq!(rt; info.policy, [0x2a, 0x03, 0x04, 0x01].as_slice());
    assert_eq!(rt; info.hash.params, Some([0x05, 0x00].as_slice()));
    assert_eq!(rt; info.imprint, &REQUEST[22..54]);
    assert_eq!(rt; info.serial, [2].as_slice());
    assert_eq!(rt; (info.time.seconds, info.time.nanos), (1_796_086_038, 0));
    assert!(rt; info.ordering);
    assert_eq!(rt; info.nonce, Some(OPENSSL_NONCE));
    assert_eq!(rt;
        read_response(&OPENSSL_REJECTION),
        Err(RespFault::NotGranted(2))
    );
    Ok(())
}

#[test]
fn an_info_that_is_cut_anywhere_ends_too_early(rt: HostRuntime) {
    for length in 0..INFO.len() {
        assert_eq!(rt;
            read_tst(&INFO[..length]).err(),
            der(length as u64, DerKind::Truncated)
        );
    }
    for length in 0..REQUEST.len() {
        assert_eq!(rt;
            read_request(&REQUEST[..length]).err(),
            der(length as u64, DerKind::Truncated)
        );
    }
}

// The bytes with these ones at these places.
fn patched(alloc: Global, bytes: &[u8], patches: &[(usize, u8)]) -> Result<Vec<u8>, AllocError> {
    let mut patched = Vec::from_slice(alloc, bytes)?;
    for &(place, byte) in patches {
        if let Some(old) = patched.get_mut(place) {
            *old = byte;
        }
    }
    Ok(patched)
}

#[test]
fn an_info_is_refused_for_its_first_fault(rt: HostRuntime) -> Result<(), Fail> {
    // What is changed in the info of 82 bytes, and the fault.
    let cases: [(&[(usize, u8)], u64, TstKind); 16] = [
        (&[(0, 0x31)], 0, TstKind::Der(DerKind::WrongTag)),
        // The outer value ends inside the nonce.
        (&[(1, 0x4f)], 81, TstKind::Der(DerKind::Truncated)),
        (&[(2, 0x04)], 2, TstKind::Der(DerKind::WrongTag)),
        (&[(4, 0x02)], 2, TstKind::Version),
        (&[(4, 0x00)], 2, TstKind::Version),
        // The last subidentifier of the policy does not end.
        (&[(9, 0x81)], 5, TstKind::Der(DerKind::BadValue)),
        (&[(12, 0x31)], 12, TstKind::Der(DerKind::WrongTag)),
        (&[(14, 0x05)], 14, TstKind::Der(DerKind::WrongTag)),
        // Parameters begin, and the AlgorithmIdentifier ends inside them.
        (&[(15, 0x07)], 25, TstKind::Der(DerKind::Truncated)),
        // The hash value ends early, and leaves bytes behind it.
        (&[(26, 0x1e)], 57, TstKind::Der(DerKind::Trailing)),
        (&[(59, 0x04)], 59, TstKind::Der(DerKind::WrongTag)),
        (&[(62, 0x17)], 62, TstKind::Der(DerKind::WrongTag)),
        // A month 13, and a Z that is missing.
        (
            &[(68, b'1'), (69, b'3')],
            62,
            TstKind::Time(TimeFault::Range),
        ),
        (&[(78, b'0')], 62, TstKind::Time(TimeFault::Shape)),
        // FALSE is a default, which is not written.
        (
            &[(79, 0x01), (81, 0x00)],
            79,
            TstKind::Der(DerKind::BadValue),
        ),
        // No part of an info has this tag.
        (&[(79, 0x04)], 79, TstKind::Der(DerKind::Trailing)),
    ];
    for (patches, place, kind) in cases {
        let bytes = patched(rt.alloc(), &INFO, patches)?;
        assert_eq!(rt; read_tst(bytes.as_slice()).err(), at(place, kind));
    }
    let mut longer = Vec::from_slice(rt.alloc(), &INFO)?;
    longer.push(0)?;
    assert_eq!(rt;
        read_tst(longer.as_slice()).err(),
        der(82, DerKind::Trailing)
    );
    Ok(())
}

#[test]
fn a_request_is_refused_for_its_first_fault(rt: HostRuntime) -> Result<(), Fail> {
    // What is changed in the request of 57 bytes, and the fault.
    let cases: [(&[(usize, u8)], u64, TstKind); 8] = [
        (&[(0, 0x31)], 0, TstKind::Der(DerKind::WrongTag)),
        (&[(1, 0x80)], 1, TstKind::Der(DerKind::Indefinite)),
        (&[(4, 0x03)], 2, TstKind::Version),
        (&[(5, 0x31)], 5, TstKind::Der(DerKind::WrongTag)),
        // A policy, and certReq, where the nonce was.
        (
            &[(54, 0x06), (56, 0x80)],
            54,
            TstKind::Der(DerKind::BadValue),
        ),
        (
            &[(54, 0x01), (56, 0x00)],
            54,
            TstKind::Der(DerKind::BadValue),
        ),
        (
            &[(54, 0x01), (56, 0x01)],
            54,
            TstKind::Der(DerKind::BadValue),
        ),
        (&[(54, 0xa1)], 54, TstKind::Der(DerKind::Trailing)),
    ];
    for (patches, place, kind) in cases {
        let bytes = patched(rt.alloc(), &REQUEST, patches)?;
        assert_eq!(rt; read_request(bytes.as_slice()).err(), at(place, kind));
    }
    Ok(())
}

#[test]
fn a_version_is_an_integer_first(rt: HostRuntime) {
    let cases: [(&[u8], TstKind); 5] = [
        (&[0x30, 0x02, 0x02, 0x00], TstKind::Der(DerKind::BadValue)),
        (
            &[0x30, 0x04, 0x02, 0x02, 0x00, 0x01],
            TstKind::Der(DerKind::NotMinimal),
        ),
        (&[0x30, 0x04, 0x02, 0x02, 0x01, 0x00], TstKind::Version),
        (&[0x30, 0x03, 0x02, 0x01, 0xff], TstKind::Version),
        (&[0x30, 0x03, 0x02, 0x01, 0x00], TstKind::Version),
    ];
    for (bytes, kind) in cases {
        assert_eq!(rt; read_tst(bytes).err(), at(2, kind));
        assert_eq!(rt; read_request(bytes).err(), at(2, kind));
    }
}

fn resp(place: u64, kind: DerKind) -> RespFault {
    RespFault::Der(DerFault { place, kind })
}

#[test]
fn a_response_is_its_token_or_the_first_reason_for_none(rt: HostRuntime) {
    let cases: [(&[u8], Result<&[u8], RespFault>); 16] = [
        (
            &[0x30, 0x07, 0x30, 0x03, 0x02, 0x01, 0, 0x30, 0x00],
            Ok(&[0x30, 0x00]),
        ),
        (
            &[0x30, 0x08, 0x30, 0x03, 0x02, 0x01, 1, 0x30, 0x01, 7],
            Ok(&[0x30, 0x01, 7]),
        ),
        // What stands behind the status need not even be a value.
        (
            &[
                0x30, 0x09, 0x30, 0x05, 0x02, 0x01, 1, 0x1f, 0x80, 0x30, 0x00,
            ],
            Ok(&[0x30, 0x00]),
        ),
        (
            &[0x30, 0x05, 0x30, 0x03, 0x02, 0x01, 0],
            Err(RespFault::NoToken),
        ),
        (
            &[0x30, 0x05, 0x30, 0x03, 0x02, 0x01, 1],
            Err(RespFault::NoToken),
        ),
        (
            &[0x30, 0x05, 0x30, 0x03, 0x02, 0x01, 2],
            Err(RespFault::NotGranted(2)),
        ),
        (
            &[0x30, 0x05, 0x30, 0x03, 0x02, 0x01, 0x7f],
            Err(RespFault::NotGranted(127)),
        ),
        // The status decides before what follows it.
        (
            &[0x30, 0x07, 0x30, 0x03, 0x02, 0x01, 5, 0x04, 0x00],
            Err(RespFault::NotGranted(5)),
        ),
        (
            &[0x30, 0x05, 0x30, 0x03, 0x02, 0x01, 0x80],
            Err(resp(4, DerKind::BadValue)),
        ),
        (
            &[0x30, 0x06, 0x30, 0x04, 0x02, 0x02, 0, 0x80],
            Err(resp(4, DerKind::BadValue)),
        ),
        (
            &[0x30, 0x06, 0x30, 0x04, 0x02, 0x02, 0, 1],
            Err(resp(4, DerKind::NotMinimal)),
        ),
        (
            &[0x30, 0x04, 0x30, 0x02, 0x02, 0x00],
            Err(resp(4, DerKind::BadValue)),
        ),
        (
            &[0x30, 0x07, 0x30, 0x03, 0x02, 0x01, 0, 0x31, 0x00],
            Err(resp(7, DerKind::Trailing)),
        ),
        (
            &[
                0x30, 0x09, 0x30, 0x03, 0x02, 0x01, 0, 0x30, 0x00, 0x30, 0x00,
            ],
            Err(resp(9, DerKind::Trailing)),
        ),
        (
            &[0x30, 0x06, 0x30, 0x03, 0x02, 0x01, 0, 0x30],
            Err(resp(8, DerKind::Truncated)),
        ),
        (
            &[0x30, 0x07, 0x30, 0x03, 0x02, 0x01, 0, 0x30, 0x00, 9],
            Err(resp(9, DerKind::Trailing)),
        ),
    ];
    for (bytes, expected) in cases {
        assert_eq!(rt; read_response(bytes), expected);
    }
}

#[test]
fn a_response_is_written_with_its_status_and_its_token(rt: HostRuntime) -> Result<(), Fail> {
    let rejected = write_response(rt.alloc(), 2, None)?;
    assert_eq!(rt;
        rejected.as_slice(),
        [0x30, 0x05, 0x30, 0x03, 0x02, 0x01, 2].as_slice()
    );
    let granted = write_response(rt.alloc(), 1, Some(&[0x30, 0x01, 7]))?;
    assert_eq!(rt;
        granted.as_slice(),
        [0x30, 0x08, 0x30, 0x03, 0x02, 0x01, 1, 0x30, 0x01, 7].as_slice()
    );
    Ok(())
}
