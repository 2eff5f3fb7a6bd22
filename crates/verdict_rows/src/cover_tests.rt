// Records that cover their documents or don't, and the moments at which they are judged. What is expected
// follows from the order in which a record is judged: it is no record; a token isn't sound; hashes are mixed; a time is out of
// order; a value isn't covered; a value is no document's; the moment is before the last time; a time-stamp lapsed; else it is
// valid.
use crate::records::StampRow;
use crate::rows::{MEMBER, Row};
use crate::tests::{
    FIRST_STAMP, IN_A_CHAIN, IN_TWO_CHAINS, LISTED, MISNAMED, PLAIN, SECOND_STAMP, TWO, assert_each,
};
use crate::tokens::{FIRST, Made, authority};
use crate::values::sha256;
use evidence_verify::Mode;
use std::alloc::Global;
use std::test::Fail;

const ABD: &[&[u8]] = &[b"abd"];

// Tokens over the value of `abc` and over the digest of that value; the values of `abc` and of `other`.
fn covering(alloc: Global) -> Result<Made, Fail> {
    let mut authority = authority(alloc, 1)?;
    let mut made = Made::new(alloc);
    let abc = sha256(b"abc");
    made.stamp(&mut authority, FIRST, &abc)?;
    made.stamp(&mut authority, FIRST, &sha256(abc.bytes()))?;
    made.add_value(abc)?;
    made.add_value(sha256(b"other"))?;
    Ok(made)
}

#[test]
fn a_value_is_covered_by_its_imprint_or_by_its_lists(rt: HostRuntime) -> Result<(), Fail> {
    let made = covering(rt.alloc())?;
    assert_each(&rt, &made, IMPRINTS)?;
    assert_each(&rt, &made, LISTS)?;
    assert_each(&rt, &made, MOMENTS)
}

const UNNAMED: StampRow = StampRow {
    names: None,
    ..FIRST_STAMP
};

const OF_UNNAMED: &[&[StampRow]] = &[&[UNNAMED]];

const OF_MISNAMED: &[&[StampRow]] = &[&[MISNAMED]];

const OF_SECOND: &[&[StampRow]] = &[&[SECOND_STAMP]];

const IMPRINTS: &[Row] = &[
    Row {
        says: "no lists",
        chains: PLAIN,
        ..MEMBER
    },
    Row {
        says: "no lists, whole",
        chains: PLAIN,
        mode: Mode::Whole,
        ..MEMBER
    },
    Row {
        says: "no name",
        chains: OF_UNNAMED,
        ..MEMBER
    },
    Row {
        says: "another name",
        chains: OF_MISNAMED,
        verdict: "hash 0 0",
        ..MEMBER
    },
    Row {
        says: "before the values",
        chains: OF_MISNAMED,
        documents: ABD,
        verdict: "hash 0 0",
        ..MEMBER
    },
    Row {
        says: "another value",
        chains: OF_SECOND,
        verdict: "uncovered 0 0 0",
        ..MEMBER
    },
    Row {
        says: "a second",
        chains: PLAIN,
        documents: TWO,
        verdict: "uncovered 0 0 1",
        ..MEMBER
    },
    Row {
        says: "not the token",
        chains: IN_A_CHAIN,
        verdict: "uncovered 0 1 -",
        ..MEMBER
    },
    Row {
        says: "not the chains",
        chains: IN_TWO_CHAINS,
        verdict: "uncovered 1 0 0",
        ..MEMBER
    },
];

// A list of the value, by its own token and by that of its digest.
const ITS_HASH: &[&[StampRow]] = &[&[StampRow {
    lists: &[&[0]],
    ..SECOND_STAMP
}]];

const OTHER_ROOT: &[&[StampRow]] = &[&[StampRow {
    lists: &[&[0, 1]],
    ..FIRST_STAMP
}]];

const LISTS: &[Row] = &[
    Row {
        says: "the value",
        chains: LISTED,
        ..MEMBER
    },
    Row {
        says: "the value, whole",
        chains: LISTED,
        mode: Mode::Whole,
        ..MEMBER
    },
    Row {
        says: "its hash",
        chains: ITS_HASH,
        ..MEMBER
    },
    Row {
        says: "its hash, whole",
        chains: ITS_HASH,
        mode: Mode::Whole,
        ..MEMBER
    },
    Row {
        says: "another root",
        chains: OTHER_ROOT,
        verdict: "uncovered 0 0 0",
        ..MEMBER
    },
    Row {
        says: "not in the list",
        chains: LISTED,
        documents: TWO,
        verdict: "uncovered 0 0 1",
        ..MEMBER
    },
    Row {
        says: "before the whole",
        chains: LISTED,
        documents: ABD,
        mode: Mode::Whole,
        verdict: "uncovered 0 0 0",
        ..MEMBER
    },
];

// The first token is of 1,767,614,400; the key ends with 2029, SHA-256 with 2034.
const MOMENTS: &[Row] = &[
    Row {
        says: "a second early",
        chains: PLAIN,
        moment: 1_767_614_399,
        verdict: "early 20260105115959Z 20260105120000Z",
        ..MEMBER
    },
    Row {
        says: "in time",
        chains: PLAIN,
        moment: 1_767_614_400,
        ..MEMBER
    },
    Row {
        says: "a second before the key's end",
        chains: PLAIN,
        moment: 1_893_455_999,
        ..MEMBER
    },
    Row {
        says: "the key's end",
        chains: PLAIN,
        moment: 1_893_456_000,
        verdict: "lapsed 0 0 key 20300101000000Z",
        ..MEMBER
    },
    Row {
        says: "the hash's end",
        chains: PLAIN,
        moment: 2_051_222_400,
        verdict: "lapsed 0 0 key 20300101000000Z",
        ..MEMBER
    },
];
