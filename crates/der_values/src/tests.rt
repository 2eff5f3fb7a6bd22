use super::example::{Catalogue, CatalogueKind, read_catalogue, write_catalogue};
use super::*;
use std::cmp::Ordering;
use std::test::*;

fn fault(place: u64, kind: DerKind) -> Option<DerFault> {
    Some(DerFault { place, kind })
}

fn integer(bytes: &[u8]) -> Result<&[u8], DerFault> {
    read_integer(&Reader::new(bytes, 0).next()?)
}

fn boolean(bytes: &[u8]) -> Result<bool, DerFault> {
    read_boolean(&Reader::new(bytes, 0).next()?)
}

fn object_identifier(bytes: &[u8]) -> Result<&[u8], DerFault> {
    read_oid(&Reader::new(bytes, 0).next()?)
}

fn algorithm(bytes: &[u8]) -> Result<AlgName<'_>, DerFault> {
    read_algorithm(&Reader::new(bytes, 0).next()?)
}

#[test]
fn a_header_is_refused_at_the_place_of_its_fault(rt: HostRuntime) {
    let cases: [(&[u8], u64, DerKind); 10] = [
        (&[], 0, DerKind::Truncated),
        (&[0x1f, 0x01], 0, DerKind::HighTag),
        (&[0x04], 1, DerKind::Truncated),
        (&[0x30, 0x80], 1, DerKind::Indefinite),
        (&[0x04, 0x85], 1, DerKind::LongForm),
        (&[0x04, 0xff], 1, DerKind::LongForm),
        (&[0x04, 0x82, 0x01], 3, DerKind::Truncated),
        // Five octets fit the short form.
        (&[0x04, 0x81, 0x05, 1, 2, 3, 4, 5], 1, DerKind::NotMinimal),
        (&[0x04, 0x82, 0x00, 0x80], 1, DerKind::NotMinimal),
        (&[0x04, 0x05, 0x00], 3, DerKind::Truncated),
    ];
    for (bytes, place, kind) in cases {
        assert_eq!(rt; Reader::new(bytes, 0).next().err(), fault(place, kind));
        assert_eq!(rt;
            Reader::new(bytes, 100).next().err(),
            fault(100 + place, kind)
        );
    }
}

#[test]
fn a_reader_hands_out_values_and_stays_at_a_fault(rt: HostRuntime) {
    let bytes = [0x02, 0x01, 0x07, 0x24, 0x03, 0x04, 0x01, 0x00];
    let mut reader = Reader::new(&bytes, 10);
    assert_eq!(rt; reader.next_tag(), Some(0x02));
    let first = reader.next().ok();
    assert_eq!(rt; first.map(|t: Tlv<'_>| t.place), Some(10));
    assert_eq!(rt; first.map(|t: Tlv<'_>| t.whole.len()), Some(3));
    // A constructed OCTET STRING is none of DER.
    assert_eq!(rt; reader.expect(0x04).err(), fault(13, DerKind::WrongTag));
    assert_eq!(rt; reader.finish().err(), fault(13, DerKind::Trailing));
    let absent = reader.optional(0x04);
    assert!(rt; matches!(absent, Ok(None)));
    let second = reader.further();
    assert!(rt;
        matches!(
            second,
            Ok(Some(Tlv {
                place: 13,
                content: [0x04, 0x01, 0x00],
                ..
            }))
        )
    );
    assert!(rt; reader.at_end());
    assert_eq!(rt; reader.next_tag(), None);
    let none = reader.further();
    assert!(rt; matches!(none, Ok(None)));
    assert!(rt; reader.finish().is_ok());
}

#[test]
fn a_constructed_octet_string_has_a_wrong_tag(rt: HostRuntime) {
    let bytes = [0x24, 0x03, 0x04, 0x01, 0x00];
    assert_eq!(rt;
        Reader::new(&bytes, 0).expect(0x04).err(),
        fault(0, DerKind::WrongTag)
    );
}

#[test]
fn an_integer_is_in_the_fewest_octets(rt: HostRuntime) {
    let cases: [(&[u8], Option<DerKind>); 8] = [
        (&[0x02, 0x00], Some(DerKind::BadValue)),
        (&[0x02, 0x01, 0x00], None),
        (&[0x02, 0x02, 0x00, 0x80], None),
        (&[0x02, 0x02, 0x00, 0x01], Some(DerKind::NotMinimal)),
        (&[0x02, 0x02, 0x00, 0x7f], Some(DerKind::NotMinimal)),
        (&[0x02, 0x02, 0xff, 0x80], Some(DerKind::NotMinimal)),
        (&[0x02, 0x02, 0xff, 0x7f], None),
        (&[0x02, 0x01, 0xff], None),
    ];
    for (bytes, kind) in cases {
        assert_eq!(rt; integer(bytes).err().map(|e: DerFault| e.kind), kind);
    }
}

#[test]
fn a_boolean_is_one_of_two_octets(rt: HostRuntime) {
    let cases: [(&[u8], Result<bool, DerFault>); 5] = [
        (&[0x01, 0x01, 0x00], Ok(false)),
        (&[0x01, 0x01, 0xff], Ok(true)),
        (
            &[0x01, 0x01, 0x01],
            Err(DerFault {
                place: 0,
                kind: DerKind::BadValue,
            }),
        ),
        (
            &[0x01, 0x00],
            Err(DerFault {
                place: 0,
                kind: DerKind::BadValue,
            }),
        ),
        (
            &[0x01, 0x02, 0xff, 0xff],
            Err(DerFault {
                place: 0,
                kind: DerKind::BadValue,
            }),
        ),
    ];
    for (bytes, expected) in cases {
        assert_eq!(rt; boolean(bytes), expected);
    }
}

#[test]
fn an_object_identifier_has_whole_subidentifiers(rt: HostRuntime) {
    let cases: [(&[u8], bool); 6] = [
        // 2.100.3 and 1.2.840.113549, the examples of X.690, 8.19.5, and of RSA's arc.
        (&[0x06, 0x03, 0x81, 0x34, 0x03], true),
        (&[0x06, 0x06, 0x2a, 0x86, 0x48, 0x86, 0xf7, 0x0d], true),
        (&[0x06, 0x00], false),
        (&[0x06, 0x02, 0x2a, 0x86], false),
        (&[0x06, 0x02, 0x80, 0x01], false),
        (&[0x06, 0x03, 0x2a, 0x80, 0x01], false),
    ];
    for (bytes, good) in cases {
        assert_eq!(rt; object_identifier(bytes).is_ok(), good);
    }
}

#[test]
fn an_algorithm_has_at_most_one_parameter(rt: HostRuntime) {
    let with_null: [u8; 9] = [0x30, 0x07, 0x06, 0x03, 0x81, 0x34, 0x03, 0x05, 0x00];
    let name = algorithm(&with_null);
    assert!(rt;
        matches!(
            name,
            Ok(AlgName {
                oid: [0x81, 0x34, 0x03],
                params: Some([0x05, 0x00])
            })
        )
    );
    let cases: [(&[u8], u64, DerKind); 5] = [
        (&[0x30, 0x00], 2, DerKind::Truncated),
        (&[0x30, 0x02, 0x05, 0x00], 2, DerKind::WrongTag),
        (&[0x30, 0x03, 0x06, 0x01, 0x80], 2, DerKind::BadValue),
        (
            &[0x30, 0x05, 0x06, 0x01, 0x2a, 0x05, 0x01],
            7,
            DerKind::Truncated,
        ),
        (
            &[0x30, 0x07, 0x06, 0x01, 0x2a, 0x05, 0x00, 0x05, 0x00],
            7,
            DerKind::Trailing,
        ),
    ];
    for (bytes, place, kind) in cases {
        assert_eq!(rt; algorithm(bytes).err(), fault(place, kind));
    }
}

#[test]
fn the_shorter_encoding_is_padded_with_zeros(rt: HostRuntime) {
    let cases: [(&[u8], &[u8], Ordering); 6] = [
        (&[], &[], Ordering::Equal),
        (&[1, 2], &[1, 3], Ordering::Less),
        (&[2], &[1, 3], Ordering::Greater),
        (&[1], &[1, 0, 0], Ordering::Equal),
        (&[1], &[1, 0, 1], Ordering::Less),
        (&[1, 0, 1], &[1], Ordering::Greater),
    ];
    for (a, b, expected) in cases {
        assert_eq!(rt; set_order(a, b), expected);
    }
}

#[test]
fn a_written_length_is_in_the_fewest_octets(rt: HostRuntime) -> Result<(), Fail> {
    let cases: [(usize, &[u8]); 6] = [
        (0, &[0x04, 0x00]),
        (127, &[0x04, 0x7f]),
        (128, &[0x04, 0x81, 0x80]),
        (200, &[0x04, 0x81, 0xc8]),
        (255, &[0x04, 0x81, 0xff]),
        (256, &[0x04, 0x82, 0x01, 0x00]),
    ];
    for (size, header) in cases {
        let mut content = Vec::new(rt.alloc());
        content.resize(size, 7)?;
        let mut out = vec![in rt.alloc(); 9u8]?;
        write_tlv(&mut out, 0x04, content.as_slice())?;
        assert_eq!(rt; out.len(), 1 + header.len() + size);
        assert_eq!(rt; out[0], 9);
        assert_eq!(rt; &out[1..1 + header.len()], header);
    }
    Ok(())
}

// id-sha256 (RFC 5754, 2.2).
const SHA256: [u8; 9] = [0x60, 0x86, 0x48, 0x01, 0x65, 0x03, 0x04, 0x02, 0x01];

#[test]
fn absent_and_null_parameters_are_none(rt: HostRuntime) {
    let cases: [(Option<&[u8]>, bool); 3] = [
        (None, true),
        (Some(&[0x05, 0x00]), true),
        (Some(&[0x05, 0x01, 0x00]), false),
    ];
    for (params, expected) in cases {
        let name = AlgName {
            oid: SHA256.as_slice(),
            params,
        };
        assert_eq!(rt; name.has_no_parameters(), expected);
    }
}

#[test]
fn an_algorithm_is_written_with_its_parameters(rt: HostRuntime) -> Result<(), Fail> {
    let name = AlgName {
        oid: &[0x2a, 0x03],
        params: Some(&[0x05, 0x00]),
    };
    let mut out = zeros(rt.alloc(), 1)?;
    write_algorithm(&mut out, 0xa0, &name)?;
    let expected = [0u8, 0xa0, 0x06, 0x06, 0x02, 0x2a, 0x03, 0x05, 0x00];
    assert_eq!(rt; out.as_slice(), expected.as_slice());
    Ok(())
}

#[test]
fn a_catalogue_is_read_by_its_table(rt: HostRuntime) -> Result<(), Fail> {
    let hash = [
        0x30, 0x0b, 0x06, 0x09, 0x60, 0x86, 0x48, 0x01, 0x65, 0x03, 0x04, 0x02, 0x01,
    ];
    // What follows the hash, and the number of keys or the fault.
    let cases: [(&[u8], Result<u64, (u64, CatalogueKind)>); 6] = [
        (&[0x30, 0x00], Ok(0)),
        (
            &[0x01, 0x01, 0xff, 0x30, 0x06, 0x04, 0x01, 1, 0x04, 0x01, 2],
            Ok(2),
        ),
        (
            &[0x30, 0x06, 0x04, 0x01, 2, 0x04, 0x01, 1],
            Err((20, CatalogueKind::KeyOrder)),
        ),
        (
            &[0x01, 0x01, 0x00, 0x30, 0x00],
            Err((15, CatalogueKind::Der(DerKind::BadValue))),
        ),
        (
            &[0x30, 0x02, 0x05, 0x00],
            Err((17, CatalogueKind::Der(DerKind::WrongTag))),
        ),
        (
            &[0x30, 0x00, 0x05, 0x00],
            Err((17, CatalogueKind::Der(DerKind::Trailing))),
        ),
    ];
    for (rest, expected) in cases {
        let mut content = Vec::from_slice(rt.alloc(), hash.as_slice())?;
        content.extend_from_slice(rest)?;
        let mut bytes = Vec::new(rt.alloc());
        write_tlv(&mut bytes, 0x30, content.as_slice())?;
        let found = match read_catalogue(bytes.as_slice()) {
            Ok(catalogue) => Ok(catalogue.keys),
            Err(fault) => Err((fault.place, fault.kind)),
        };
        assert_eq!(rt; found, expected);
    }
    Ok(())
}

#[test]
fn a_catalogue_of_one_key_is_written_and_read(rt: HostRuntime) -> Result<(), Fail> {
    let mut out = Vec::new(rt.alloc());
    write_catalogue(&mut out, &[7, 8, 9])?;
    let found = read_catalogue(out.as_slice());
    assert!(rt;
        matches!(
            found,
            Ok(Catalogue {
                is_complete: false,
                keys: 1,
                ..
            })
        )
    );
    Ok(())
}

#[test]
fn lists_hand_out_what_they_were_made_of(rt: HostRuntime) -> Result<(), Fail> {
    let first = Bytes::from_vec(vec![in rt.alloc(); 1, 2, 3]?);
    assert_eq!(rt; first.as_slice(), &[1u8, 2, 3][..]);
    let list: Items<Bytes> = Items::from_vec(vec![in rt.alloc(); first]?);
    assert_eq!(rt; list.as_slice().len(), 1);
    let mut back = list.into_vec();
    let last = back.pop().map(|bytes: Bytes| bytes.into_vec());
    assert_eq!(rt; last.map(|bytes: Vec<u8>| bytes.len()), Some(3));
    Ok(())
}
