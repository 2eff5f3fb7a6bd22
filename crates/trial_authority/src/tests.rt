// Stamps over disks in memory. The expected bytes, lengths and digests were made by a writer of such replies in Python, with a
// signer after the algorithms of RFC 8554.
use crate::{TrialAuthority, TrialPair, trial_public};
use algorithm_policy::read_policy;
use civil_moment::Moment;
use cms_signed::read_signed;
use der_values::{Bytes, Items, zeros};
use ev_devices::{MemDisk, Scripted};
use ev_world::{Authority, StampFault};
use hash_kit::{HashAlg, HashValue, digest};
use std::alloc::{AllocError, Global};
use std::test::Fail;
use token_check::check_token;
use tst_info::read_response;

/// Over the SHA-256 of `abc`, with the nonce 3.
const REQUEST: &[u8] = b"\
    \x30\x37\x02\x01\x01\x30\x2f\x30\x0b\x06\x09\x60\x86\x48\x01\x65\x03\x04\x02\x01\x04\x20\
    \xba\x78\x16\xbf\x8f\x01\xcf\xea\x41\x41\x40\xde\x5d\xae\x22\x23\xb0\x03\x61\xa3\x96\x17\x7a\x9c\xb4\x10\xff\x61\xf2\x00\x15\xad\
    \x02\x01\x03";

const REJECTION: &[u8] = b"\x30\x05\x30\x03\x02\x01\x02";

/// The seed of 32 bytes 01, its key, and the SHA-256 of the key.
const SEED: [u8; 32] = [1; 32];

const POLICY: &[u8] = b"evidence policy 1\n\
    hash sha256 20350101000000Z\n\
    hash sha512 20600101000000Z\n\
    authority early 8014eee5f88b134f44ff043623bc86a39c86915dc3d1 0000000200000005000000033ee0d443b06f1bdc534e6c3ae9f9dc466c651dfad7065f21e48b0ea6599e2c6ec70ccba5dc05649313c370ce753d6e19 eee5f88b134f44ff043623bc86a39c86915dc3d1db04e363bd67bf83cd014090 20300101000000Z\n";

/// 2026-01-05 12:00:00, and 2028-01-01 00:00:00.
const STAMPED: Moment = Moment {
    seconds: 1_767_614_400,
    nanos: 0,
};

const SWITCH: Moment = Moment {
    seconds: 1_830_297_600,
    nanos: 0,
};

const BEFORE: Moment = Moment {
    seconds: 1_830_297_599,
    nanos: 999_999_999,
};

/// Over the SHA-512 of `abc`, with NULL as parameters and no nonce.
const OTHER_REQUEST: &[u8] = b"\
    \x30\x56\x02\x01\x01\x30\x51\x30\x0d\x06\x09\x60\x86\x48\x01\x65\x03\x04\x02\x03\
    \x05\x00\x04\x40\xdd\xaf\x35\xa1\x93\x61\x7a\xba\xcc\x41\x73\x49\xae\x20\x41\x31\
    \x12\xe6\xfa\x4e\x89\xa9\x7e\xa2\x0a\x9e\xee\xe6\x4b\x55\xd3\x9a\x21\x92\x99\x2a\
    \x27\x4f\xc1\xa8\x36\xba\x3c\x23\xa3\xfe\xeb\xbd\x45\x4d\x44\x23\x64\x3c\xe8\x0e\
    \x2a\x9a\xc9\x4f\xa5\x4c\xa4\x9f";

fn disk(alloc: Global, bytes: Vec<u8>, failing: &[u64]) -> Result<MemDisk, AllocError> {
    let failing = Items::from_vec(failing.to_vec(alloc)?);
    Ok(MemDisk::new(alloc, Bytes::from_vec(bytes), failing, u64::MAX))
}

// A key state of so many indexes, of which the last that is used is the one before `next`.
fn state(alloc: Global, leaves: u32, next: u32) -> Result<Vec<u8>, AllocError> {
    let mut bytes = Vec::from_slice(alloc, b"EVIDENCE-KEYS-1\n")?;
    for index in 0..leaves {
        bytes.push(if index < next { 0xff } else { 0 })?;
    }
    Ok(bytes)
}

fn over(alloc: Global, disk: MemDisk) -> Result<TrialAuthority<MemDisk>, AllocError> {
    match TrialAuthority::new(alloc, disk, SEED) {
        Ok(authority) => Ok(authority),
        Err((_, fault)) => Err(fault),
    }
}

fn sha256(bytes: &[u8]) -> HashValue {
    digest(HashAlg::Sha256, bytes)
}

#[test]
fn a_first_request_is_granted_and_its_token_is_sound(rt: HostRuntime) -> Result<(), Fail> {
    let alloc = rt.alloc();
    let mut authority = over(alloc, disk(alloc, Vec::new(alloc), &[])?)?;
    let reply = authority.stamp(STAMPED, REQUEST).expect(&rt, "a reply");
    assert_eq!(&rt; reply.len(), 5109);
    assert_eq!(&rt;
        sha256(&reply).bytes(),
        b"\x97\xcd\xb2\x33\xc6\x35\x9d\xe7\x82\xa5\x86\x16\xc8\x56\x04\x2a\x7d\x50\xc6\xb0\
          \xa6\x51\x69\x5b\xd8\x94\x47\x6a\x29\x59\x0b\x8b"
            .as_slice()
    );
    let token = read_response(&reply).expect(&rt, "a token");
    assert_eq!(&rt; token.len(), 5100);
    assert_eq!(&rt;
        read_signed(token).expect(&rt, "signed data").content.len(),
        82
    );
    let policy = read_policy(alloc, POLICY)?;
    let stamp = check_token(alloc, token, &policy).expect(&rt, "a sound token");
    assert_eq!(&rt; stamp.time, STAMPED);
    assert_eq!(&rt; stamp.imprint, &REQUEST[22..54]);
    assert_eq!(&rt; stamp.nonce, Some([3].as_slice()));
    Ok(())
}

#[test]
fn a_later_index_signs_without_parameters_and_nonce(rt: HostRuntime) -> Result<(), Fail> {
    let alloc = rt.alloc();
    let mut authority = over(alloc, disk(alloc, state(alloc, 1024, 200)?, &[])?)?;
    let reply = authority
        .stamp(STAMPED, OTHER_REQUEST)
        .expect(&rt, "a reply");
    assert_eq!(&rt; reply.len(), 5140);
    assert_eq!(&rt;
        sha256(&reply).bytes(),
        b"\x44\xb5\x84\x38\x8e\xe8\x19\x23\x75\xce\x88\x69\x19\x39\x78\x9d\x91\x27\x42\x84\
          \x0f\xd9\x5e\xb4\x87\x30\xd1\x9e\xf0\x58\xf3\x4e"
            .as_slice()
    );
    Ok(())
}

#[test]
fn the_public_key_is_that_of_another_signer(rt: HostRuntime) -> Result<(), Fail> {
    let alloc = rt.alloc();
    assert_eq!(&rt;
        sha256(trial_public(alloc, &SEED)?.bytes()).bytes(),
        b"\xee\xe5\xf8\x8b\x13\x4f\x44\xff\x04\x36\x23\xbc\x86\xa3\x9c\x86\x91\x5d\xc3\xd1\
          \xdb\x04\xe3\x63\xbd\x67\xbf\x83\xcd\x01\x40\x90"
            .as_slice()
    );
    Ok(())
}

// No request; one that is cut; one over a hash that isn't known; one with other parameters; one that is too long.
#[test]
fn what_cant_be_stamped_is_rejected(rt: HostRuntime) -> Result<(), Fail> {
    let alloc = rt.alloc();
    let mut authority = over(alloc, disk(alloc, Vec::new(alloc), &[])?)?;
    let rows: [&[u8]; 4] = [
        b"",
        &REQUEST[..56],
        b"\x30\x15\x02\x01\x01\x30\x10\x30\x0b\x06\x09\x60\x86\x48\x01\x65\x03\x04\x02\x04\
          \x04\x01\x01",
        b"\x30\x17\x02\x01\x01\x30\x12\x30\x0d\x06\x09\x60\x86\x48\x01\x65\x03\x04\x02\x01\
          \x04\x00\x04\x01\x01",
    ];
    for &request in &rows {
        assert_eq!(&rt;
            authority
                .stamp(STAMPED, request)
                .expect(&rt, "a reply")
                .as_slice(),
            REJECTION
        );
    }
    let long = zeros(alloc, 4097)?;
    assert_eq!(&rt;
        authority
            .stamp(STAMPED, &long)
            .expect(&rt, "a reply")
            .as_slice(),
        REJECTION
    );
    assert_eq!(&rt; authority.calls().len(), 5);
    // None has used an index.
    assert_eq!(&rt;
        authority.close().bytes(),
        state(alloc, 1024, 0)?.as_slice()
    );
    Ok(())
}

// The last index is used; the state is short; it is long, once without a header.
#[test]
fn a_state_without_an_index_is_answered_by_a_rejection(rt: HostRuntime) -> Result<(), Fail> {
    let alloc = rt.alloc();
    let rows: [Vec<u8>; 4] = [
        state(alloc, 1024, 1024)?,
        state(alloc, 1023, 0)?,
        state(alloc, 1025, 0)?,
        zeros(alloc, 1041)?,
    ];
    for bytes in rows {
        let mut authority = over(alloc, disk(alloc, bytes, &[])?)?;
        assert_eq!(&rt;
            authority
                .stamp(STAMPED, REQUEST)
                .expect(&rt, "a reply")
                .as_slice(),
            REJECTION
        );
    }
    Ok(())
}

// To open a state takes four calls of the disk; the fifth writes the index.
#[test]
fn a_write_that_fails_breaks_the_state(rt: HostRuntime) -> Result<(), Fail> {
    let alloc = rt.alloc();
    let mut authority = over(alloc, disk(alloc, state(alloc, 1024, 7)?, &[4])?)?;
    assert_eq!(&rt;
        authority.stamp(STAMPED, REQUEST).err(),
        Some(StampFault::Failed)
    );
    assert_eq!(&rt;
        authority
            .stamp(STAMPED, REQUEST)
            .expect(&rt, "a reply")
            .as_slice(),
        REJECTION
    );
    assert_eq!(&rt; authority.calls().len(), 2);
    assert!(&rt; authority.calls()[0].reply.is_none());
    Ok(())
}

// The reply of an authority whose replies are one byte, at a moment.
fn asked<A: Authority>(authority: &mut A, now: Moment) -> Option<u8> {
    match authority.stamp(now, REQUEST) {
        Ok(reply) => reply.first().copied(),
        Err(_) => None,
    }
}

fn scripted(alloc: Global, reply: u8) -> Result<Scripted, AllocError> {
    let reply = Bytes::from_vec(Vec::from_slice(alloc, &[reply])?);
    let mut replies = Vec::with_capacity(alloc, 1)?;
    replies.push(Some(reply))?;
    Ok(Scripted::new(alloc, Items::from_vec(replies)))
}

#[test]
fn a_pair_stamps_with_the_late_one_from_the_moment_on(rt: HostRuntime) -> Result<(), Fail> {
    let alloc = rt.alloc();
    let mut pair = TrialPair::new(alloc, scripted(alloc, 1)?, scripted(alloc, 2)?, SWITCH);
    assert_eq!(&rt; asked(&mut pair, SWITCH), Some(2));
    assert_eq!(&rt; asked(&mut pair, BEFORE), Some(1));
    assert_eq!(&rt; asked(&mut pair, BEFORE), None);
    assert_eq!(&rt; pair.calls().len(), 3);
    Ok(())
}
