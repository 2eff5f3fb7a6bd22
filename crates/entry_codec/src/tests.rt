// Payloads and their first faults. The places are worked out by hand.
use crate::{EntryFault, Place, read_entry, read_places, write_entry};
use std::test::Fail;

fn place(fault: EntryFault) -> Option<u64> {
    match fault {
        EntryFault::Bad { place } => Some(place),
        EntryFault::Memory => None,
    }
}

#[test]
fn a_payload_is_refused_at_the_first_byte_too_many(rt: HostRuntime) {
    let cases: [(&[u8], u64); 12] = [
        (b"", 0),
        // No kind has this byte.
        (b"\x09", 0),
        // No group; 65 groups; more than 2^24, seen in the first byte.
        (b"\x01\x00\x00\x00\x00", 4),
        (b"\x01\x00\x00\x00\x41", 4),
        (b"\x01\x01\x00\x00\x00", 1),
        // A document of 1,048,577 bytes.
        (b"\x01\x00\x00\x00\x01\x00\x00\x00\x01\x00\x10\x00\x01", 12),
        // A document that is cut.
        (
            b"\x01\x00\x00\x00\x01\x00\x00\x00\x01\x00\x00\x00\x03ab",
            15,
        ),
        // A token of 65,537 bytes.
        (b"\x02\x01\x00\x00\x00\x00\x00\x01\x00\x01", 9),
        // A cohort twice; a lower one, seen in its third byte.
        (
            b"\x03\x01\x00\x00\x00\x02\x00\x00\x00\x05\x00\x00\x00\x05",
            13,
        ),
        (
            b"\x04\x02\x00\x00\x00\x02\x00\x00\x01\x00\x00\x00\x00\x01",
            12,
        ),
        // The greatest number, and a cohort has to follow.
        (b"\x03\x01\x00\x00\x00\x02\xff\xff\xff\xff", 9),
        // A byte behind an entry.
        (b"\x05\x00\x00\x00\x00\x00", 5),
    ];
    for &(payload, expected) in &cases {
        assert_eq!(rt;
            read_entry(rt.alloc(), payload).err().and_then(place),
            Some(expected)
        );
    }
}

#[test]
fn what_is_read_is_written_back(rt: HostRuntime) -> Result<(), Fail> {
    let cases: [&[u8]; 5] = [
        b"\x01\x00\x00\x00\x01\x00\x00\x00\x02\x00\x00\x00\x00\x00\x00\x00\x02ab",
        b"\x02\x03\x00\x00\x01\x02\x00\x00\x00\x01t",
        b"\x03\x01\x00\x00\x00\x02\x00\x00\x00\x05\xff\xff\xff\xff\x00\x00\x00\x00",
        b"\x04\x02\x00\x00\x00\x01\x00\x00\x00\x00\x00\x00\x00\x01t",
        b"\x05\x00\x00\x00\x03p\x0aq",
    ];
    for &payload in &cases {
        let entry = read_entry(rt.alloc(), payload)
            .ok()
            .ok_or("it is an entry")?;
        assert_eq!(rt; write_entry(rt.alloc(), &entry)?.as_slice(), payload);
    }
    Ok(())
}

// A group of a document of two bytes and an empty one, and a group of one byte.
#[test]
fn the_documents_of_a_deposit_are_found_at_their_places(rt: HostRuntime) -> Result<(), Fail> {
    let payload =
        b"\x01\x00\x00\x00\x02\x00\x00\x00\x02\x00\x00\x00\x02ab\x00\x00\x00\x00\x00\x00\x00\x01\x00\x00\x00\x01c";
    let found = read_places(rt.alloc(), payload)
        .ok()
        .flatten()
        .ok_or("it is a deposit")?;
    let places = [
        Place { from: 13, size: 2 },
        Place { from: 19, size: 0 },
        Place { from: 27, size: 1 },
    ];
    assert_eq!(&rt; found.counts.as_slice(), &[2, 1][..]);
    assert_eq!(&rt; found.places.as_slice(), &places[..]);
    assert_eq!(&rt; found.bytes, 3);
    Ok(())
}

#[test]
fn another_kind_has_no_places(rt: HostRuntime) {
    let rows: [(&[u8], Option<u64>); 3] = [
        (b"\x05\x00\x00\x00\x00", None),
        (b"\x06", Some(0)),
        (b"\x01\x00\x00\x00\x41", Some(4)),
    ];
    for &(payload, fault) in &rows {
        match read_places(rt.alloc(), payload) {
            Ok(found) => assert!(&rt; found.is_none() && fault.is_none()),
            Err(e) => assert_eq!(&rt; place(e), fault),
        }
    }
}
