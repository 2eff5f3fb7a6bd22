// What the tables of the tests have in common.
use crate::policies::{Terms, USUAL};
use crate::records::StampRow;
use crate::rows::{ABC, IN_2027, Row, found, judged};
use crate::tokens::{FIRST, Made, authority};
use crate::values::sha256;
use algorithm_policy::Policy;
use evidence_verify::{Mode, Verdict};
use hash_kit::HashAlg;
use session_text::write_verdict;
use std::alloc::{AllocError, Global};
use std::process::Abort;
use std::test::Fail;

// Time-stamps of SHA-256 without lists, by the numbers of their tokens.
pub(crate) const FIRST_STAMP: StampRow = StampRow {
    names: Some(HashAlg::Sha256),
    lists: &[],
    token: 0,
};

pub(crate) const SECOND_STAMP: StampRow = StampRow {
    names: Some(HashAlg::Sha256),
    lists: &[],
    token: 1,
};

// A SEQUENCE with nothing in it.
pub(crate) const NOTHING: &[u8] = b"\x30\0";

// The record has its sequence at 22, its chain at 26, its time-stamp at 30, its lists at 47 and 49, and its value at 51.
pub(crate) const LISTED: &[&[StampRow]] = &[&[StampRow {
    names: Some(HashAlg::Sha256),
    lists: &[&[0]],
    token: 0,
}]];

pub(crate) const PLAIN: &[&[StampRow]] = &[&[FIRST_STAMP]];

// The first time-stamp names another hash than that of its token.
pub(crate) const MISNAMED: StampRow = StampRow {
    names: Some(HashAlg::Sha512),
    ..FIRST_STAMP
};

pub(crate) const IN_A_CHAIN: &[&[StampRow]] = &[&[FIRST_STAMP, SECOND_STAMP]];

pub(crate) const IN_TWO_CHAINS: &[&[StampRow]] = &[&[FIRST_STAMP], &[SECOND_STAMP]];

pub(crate) const TWO: &[&[u8]] = &[b"abc", b"abd"];

pub(crate) const OTHER: &[&[u8]] = &[b"other"];

// Ends at the times of the second and the third token, and a second later.
pub(crate) const EARLY_AT_SECOND: Terms = Terms {
    early: "20290301000000Z",
    ..USUAL
};

pub(crate) const EARLY_BEHIND_SECOND: Terms = Terms {
    early: "20290301000001Z",
    ..USUAL
};

pub(crate) const SHA256_AT_SECOND: Terms = Terms {
    sha256: "20290301000000Z",
    ..USUAL
};

pub(crate) const SHA256_AT_THIRD: Terms = Terms {
    sha256: "20340601000000Z",
    ..USUAL
};

// The late authority outlives SHA-512.
pub(crate) const LATE_FOR_LONG: Terms = Terms {
    late: "20700101000000Z",
    ..USUAL
};

// The line of a verdict, without its end.
pub(crate) fn line(alloc: Global, verdict: &Verdict) -> Result<Vec<u8>, AllocError> {
    let mut line = Vec::new(alloc);
    write_verdict(&mut line, verdict)?;
    line.pop();
    Ok(line)
}

pub(crate) fn assert_each(
    rt: &(impl Abort + AllocGlobal),
    made: &Made,
    rows: &[Row],
) -> Result<(), Fail> {
    for row in rows {
        let found = found(rt.alloc(), made, row)?;
        let line = line(rt.alloc(), &found)?;
        assert_eq!(rt; line.as_slice(), row.verdict.as_bytes(), "{}", row.says);
    }
    Ok(())
}

// Over the value of `abc`, which is also the first of the values.
pub(crate) fn of_abc(alloc: Global) -> Result<Made, Fail> {
    let mut made = Made::new(alloc);
    let abc = sha256(b"abc");
    made.add_value(abc)?;
    made.stamp(&mut authority(alloc, 1)?, FIRST, &abc)?;
    Ok(made)
}

// The bytes and `abc` as a member, in 2027, have the verdict of this line.
pub(crate) fn assert_verdict(
    rt: &(impl Abort + AllocGlobal),
    policy: &Policy,
    evidence: &[u8],
    verdict: &str,
    says: &str,
) -> Result<(), Fail> {
    let found = judged(rt.alloc(), policy, evidence, ABC, Mode::Member, IN_2027)?;
    let line = line(rt.alloc(), &found)?;
    assert_eq!(rt; line.as_slice(), verdict.as_bytes(), "{says}");
    Ok(())
}

// The byte at this place is another.
pub(crate) fn changed(
    alloc: Global,
    bytes: &[u8],
    place: usize,
    byte: u8,
) -> Result<Vec<u8>, AllocError> {
    let mut bytes = bytes.to_vec(alloc)?;
    if let Some(there) = bytes.get_mut(place) {
        *there = byte;
    }
    Ok(bytes)
}

// The byte at this place is turned by the mask.
pub(crate) fn turned(
    alloc: Global,
    bytes: &[u8],
    place: usize,
    mask: u8,
) -> Result<Vec<u8>, AllocError> {
    let mut bytes = bytes.to_vec(alloc)?;
    if let Some(there) = bytes.get_mut(place) {
        *there ^= mask;
    }
    Ok(bytes)
}

// These bytes and so many zeros.
pub(crate) fn padded(alloc: Global, front: &[u8], zeros: u32) -> Result<Vec<u8>, AllocError> {
    let mut bytes = front.to_vec(alloc)?;
    for _ in 0..zeros {
        bytes.push(0)?;
    }
    Ok(bytes)
}
