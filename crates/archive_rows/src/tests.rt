// What is issued of a group that was deposited, sealed and renewed. The moments and the refusals are worked out by hand.
use crate::{add, payload};
use algorithm_policy::write_policy;
use archive_chain::Archive;
use archive_issue::issue;
use der_values::{Bytes, Items};
use evidence_verify::{Mode, Verdict};
use hash_kit::{HashAlg, digest};
use object_groups::Group;
use std::alloc::{AllocGlobal, Global};
use std::process::Abort;
use std::test::Fail;
use verdict_rows::{
    ABC, FIRST, IN_2027, Made, SECOND, THIRD, USUAL, at, authority, judged, policy,
};

// A group that is `abc`, and one of an empty document.
const TWO_GROUPS: &[u8] = b"\x01\x00\x00\x00\x02\
    \x00\x00\x00\x01\x00\x00\x00\x03abc\
    \x00\x00\x00\x01\x00\x00\x00\x00";

const SET_POLICY: &[u8] = b"\x05";

// The first pending group, by SHA-256.
const SEAL: &[u8] = b"\x02\x01\x00\x00\x00\x01";

// The cohort of the third entry, by SHA-256.
const RENEW_STAMPS: &[u8] = b"\x03\x01\x00\x00\x00\x01\x00\x00\x00\x02";

// The begin of 2030, when the key of the first token ends, and that of 2035, when SHA-256 does.
const IN_2030: u32 = 1_893_456_000;

const IN_2035: u32 = 2_051_222_400;

fn abc(alloc: Global) -> Result<Group, Fail> {
    let mut documents = Vec::new(alloc);
    documents.push(Bytes::from_vec(Vec::from_slice(alloc, b"abc")?))?;
    match Group::new(Items::from_vec(documents)) {
        Ok(group) => Ok(group),
        Err(_) => Err(Fail::from("it is no group")),
    }
}

// An archive whose first group was sealed at the first time. The token is the first of those made.
fn sealed(alloc: Global, made: &mut Made) -> Result<Archive, Fail> {
    let mut archive = Archive::new(alloc)?;
    let text = write_policy(alloc, &policy(alloc, &USUAL)?)?;
    add(
        alloc,
        &mut archive,
        payload(alloc, SET_POLICY, &text)?.as_slice(),
        &[],
    )?;
    add(alloc, &mut archive, TWO_GROUPS, &[])?;
    let leaf = digest(HashAlg::Sha256, b"abc");
    made.stamp(&mut authority(alloc, 1)?, FIRST, &leaf)?;
    let seal = payload(alloc, SEAL, made.token(0)?)?;
    add(alloc, &mut archive, &seal, &[leaf])?;
    Ok(archive)
}

// And whose cohort got a further time-stamp at the second time.
fn renewed(alloc: Global, made: &mut Made) -> Result<Archive, Fail> {
    let mut archive = sealed(alloc, made)?;
    made.stamp_again(&mut authority(alloc, 2)?, SECOND, HashAlg::Sha256)?;
    let leaf = digest(HashAlg::Sha256, made.token(0)?);
    let renewal = payload(alloc, RENEW_STAMPS, made.token(1)?)?;
    add(alloc, &mut archive, &renewal, &[leaf])?;
    Ok(archive)
}

// The record of the first group verifies at this moment.
fn assert_valid(
    rt: &(impl Abort + AllocGlobal),
    archive: &Archive,
    moment: u32,
) -> Result<(), Fail> {
    let Ok(evidence) = issue(rt.alloc(), archive, 0, &abc(rt.alloc())?, at(moment)) else {
        return Err(Fail::from("no record is issued"));
    };
    let verdict = judged(
        rt.alloc(),
        archive.policy(),
        &evidence,
        ABC,
        Mode::Member,
        moment,
    )?;
    assert!(rt; verdict == Verdict::Valid);
    Ok(())
}

#[test]
fn the_record_of_a_sealed_group_verifies(rt: HostRuntime) -> Result<(), Fail> {
    let mut made = Made::new(rt.alloc());
    let archive = sealed(rt.alloc(), &mut made)?;
    assert_valid(&rt, &archive, FIRST)?;
    assert_valid(&rt, &archive, IN_2027)?;
    assert_valid(&rt, &archive, IN_2030 - 1)
}

#[test]
fn the_record_of_a_renewed_group_verifies(rt: HostRuntime) -> Result<(), Fail> {
    let mut made = Made::new(rt.alloc());
    let archive = renewed(rt.alloc(), &mut made)?;
    assert_valid(&rt, &archive, SECOND)?;
    assert_valid(&rt, &archive, THIRD)?;
    assert_valid(&rt, &archive, IN_2035 - 1)
}

// A group, a moment, and why no record is issued of it.
struct Row {
    id: u32,
    moment: u32,
    reason: &'static str,
}

fn assert_refused(
    rt: &(impl Abort + AllocGlobal),
    archive: &Archive,
    rows: &[Row],
) -> Result<(), Fail> {
    for row in rows {
        let issued = issue(
            rt.alloc(),
            archive,
            row.id,
            &abc(rt.alloc())?,
            at(row.moment),
        );
        let reason = format!(in rt.alloc(); "{:?}", issued.err())?;
        assert_eq!(rt; reason.as_str(), row.reason);
    }
    Ok(())
}

const OF_SEALED: &[Row] = &[
    Row {
        id: 2,
        moment: FIRST,
        reason: "Some(Unknown { id: 2, groups: 2 })",
    },
    Row {
        id: 1,
        moment: FIRST,
        reason: "Some(Pending { id: 1 })",
    },
    Row {
        id: 0,
        moment: FIRST - 1,
        reason: "Some(Early { moment: Moment { seconds: 1767614399, nanos: 0 }, \
            last: Moment { seconds: 1767614400, nanos: 0 } })",
    },
    Row {
        id: 0,
        moment: IN_2030,
        reason: "Some(Lapsed(Lapse { chain: 0, stamp: 0, cause: Key, \
            end: Moment { seconds: 1893456000, nanos: 0 } }))",
    },
];

const OF_RENEWED: &[Row] = &[
    Row {
        id: 0,
        moment: FIRST,
        reason: "Some(Early { moment: Moment { seconds: 1767614400, nanos: 0 }, \
            last: Moment { seconds: 1867017600, nanos: 0 } })",
    },
    Row {
        id: 0,
        moment: IN_2035,
        reason: "Some(Lapsed(Lapse { chain: 0, stamp: 1, cause: Hash, \
            end: Moment { seconds: 2051222400, nanos: 0 } }))",
    },
];

#[test]
fn the_first_reason_not_to_issue_a_record_is_named(rt: HostRuntime) -> Result<(), Fail> {
    let mut made = Made::new(rt.alloc());
    let archive = sealed(rt.alloc(), &mut made)?;
    assert_refused(&rt, &archive, OF_SEALED)
}

#[test]
fn a_renewal_puts_off_the_lapse(rt: HostRuntime) -> Result<(), Fail> {
    let mut made = Made::new(rt.alloc());
    let archive = renewed(rt.alloc(), &mut made)?;
    assert_refused(&rt, &archive, OF_RENEWED)
}
