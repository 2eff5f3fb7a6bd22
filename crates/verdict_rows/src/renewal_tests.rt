// Evidence records that were renewed, by time-stamps and by chains, and how long they are valid. What is expected follows from
// the ends of the policy and from the order in which a record is judged.
use crate::policies::{Terms, USUAL};
use crate::records::{StampRow, sequence};
use crate::rows::{MEMBER, Row};
use crate::tests::{
    EARLY_AT_SECOND, EARLY_BEHIND_SECOND, FIRST_STAMP, LATE_FOR_LONG, OTHER, SECOND_STAMP,
    SHA256_AT_SECOND, SHA256_AT_THIRD, TWO, assert_each,
};
use crate::tokens::{FIRST, Made, SECOND, THIRD, authority, pair};
use crate::values::{ascending, later_value, root, sha256, sha512};
use evidence_verify::Mode;
use hash_kit::{HashAlg, HashValue};
use std::alloc::Global;
use std::test::Fail;

const ALL: &[&[u8]] = &[b"abc", b"abd", b"other"];

// ---- two chains at once

// `abc` with two chains. The second chain covers another value too. All times are equal, and so in order.
fn renewed_at_once(alloc: Global) -> Result<Made, Fail> {
    let mut authority = authority(alloc, 1)?;
    let mut made = Made::new(alloc);
    made.stamp(&mut authority, FIRST, &sha256(b"abc"))?;
    made.stamp_again(&mut authority, FIRST, HashAlg::Sha256)?;
    let older = sequence(alloc, &made, ONE)?;
    let values = [later_value(b"abc", &older), sha512(b"other")];
    made.values = ascending(alloc, &values)?;
    let value = root(HashAlg::Sha512, &made.values);
    made.stamp(&mut authority, FIRST, &value)?;
    Ok(made)
}

const ONE: &[&[StampRow]] = &[&[FIRST_STAMP, SECOND_STAMP]];

// The third token, over a list of both values.
const THIRD_STAMP: StampRow = StampRow {
    names: Some(HashAlg::Sha512),
    lists: &[&[0, 1]],
    token: 2,
};

const MISNAMED: StampRow = StampRow {
    names: Some(HashAlg::Sha256),
    ..THIRD_STAMP
};

const RENEWED: &[&[StampRow]] = &[&[FIRST_STAMP, SECOND_STAMP], &[THIRD_STAMP]];

const OTHER_CHAINS: &[&[StampRow]] = &[&[FIRST_STAMP], &[THIRD_STAMP]];

const MIXED_CHAIN: &[&[StampRow]] = &[&[FIRST_STAMP, THIRD_STAMP]];

const MISNAMED_CHAINS: &[&[StampRow]] = &[&[FIRST_STAMP, SECOND_STAMP], &[MISNAMED]];

const AT_ONCE: &[Row] = &[
    Row {
        says: "one chain",
        chains: ONE,
        mode: Mode::Whole,
        ..MEMBER
    },
    Row {
        says: "two chains",
        chains: RENEWED,
        ..MEMBER
    },
    Row {
        says: "another value",
        chains: RENEWED,
        mode: Mode::Whole,
        verdict: "notwhole 1",
        ..MEMBER
    },
    Row {
        says: "early",
        chains: RENEWED,
        mode: Mode::Whole,
        moment: 1_767_614_399,
        verdict: "notwhole 1",
        ..MEMBER
    },
    Row {
        says: "other chains",
        chains: OTHER_CHAINS,
        verdict: "uncovered 1 0 0",
        ..MEMBER
    },
    Row {
        says: "another hash",
        chains: MIXED_CHAIN,
        verdict: "hash 0 1",
        ..MEMBER
    },
    Row {
        says: "another name",
        chains: MISNAMED_CHAINS,
        verdict: "hash 1 0",
        ..MEMBER
    },
];

#[test]
fn a_later_chain_covers_the_chains_before_it(rt: HostRuntime) -> Result<(), Fail> {
    let made = renewed_at_once(rt.alloc())?;
    assert_each(&rt, &made, AT_ONCE)
}

// ---- a group of three documents

// Three documents as one group: the early authority stamps it, and the late one renews the time-stamp and then the hash. The values
// are those of the first chain in order, those of the second one in order, and those of `abc`, `other` and `abd`.
fn renewed_group(alloc: Global) -> Result<Made, Fail> {
    let mut pair = pair(alloc)?;
    let mut made = Made::new(alloc);
    let values = [sha256(b"abc"), sha256(b"other"), sha256(b"abd")];
    made.values = ascending(alloc, &values)?;
    let value = root(HashAlg::Sha256, &made.values);
    made.stamp(&mut pair, FIRST, &value)?;
    made.stamp_again(&mut pair, SECOND, HashAlg::Sha256)?;
    let older = sequence(alloc, &made, STAMPED)?;
    let later = later_values(alloc, &older)?;
    made.stamp(&mut pair, THIRD, &root(HashAlg::Sha512, &later))?;
    made.values.extend_from_slice(&later)?;
    made.values.extend_from_slice(&values)?;
    Ok(made)
}

// The values of the documents in the second chain.
fn later_values(alloc: Global, older: &[u8]) -> Result<Vec<HashValue>, Fail> {
    let later = [
        later_value(b"abc", older),
        later_value(b"abd", older),
        later_value(b"other", older),
    ];
    Ok(ascending(alloc, &later)?)
}

const OF_THE_GROUP: StampRow = StampRow {
    lists: &[&[0, 1, 2]],
    ..FIRST_STAMP
};

const STAMPED: &[&[StampRow]] = &[&[OF_THE_GROUP, SECOND_STAMP]];

const REHASHED: &[&[StampRow]] = &[
    &[OF_THE_GROUP, SECOND_STAMP],
    &[StampRow {
        names: Some(HashAlg::Sha512),
        lists: &[&[3, 4, 5]],
        token: 2,
    }],
];

#[test]
fn a_renewed_group_is_judged_until_it_lapses(rt: HostRuntime) -> Result<(), Fail> {
    let made = renewed_group(rt.alloc())?;
    assert_each(&rt, &made, MEMBERS)?;
    assert_each(&rt, &made, ENDS)?;
    assert_each(&rt, &made, OTHER_ENDS)?;
    assert_each(&rt, &made, REDUCED)?;
    assert_each(&rt, &made, ORDER)
}

// The begin of 2040.
const IN_2040: u32 = 2_208_988_800;

const MEMBERS: &[Row] = &[
    Row {
        says: "all",
        chains: REHASHED,
        documents: ALL,
        mode: Mode::Whole,
        moment: IN_2040,
        ..MEMBER
    },
    Row {
        says: "members",
        chains: REHASHED,
        documents: ALL,
        moment: IN_2040,
        ..MEMBER
    },
    Row {
        says: "a member",
        chains: REHASHED,
        moment: IN_2040,
        ..MEMBER
    },
    Row {
        says: "two",
        chains: REHASHED,
        documents: TWO,
        mode: Mode::Whole,
        moment: IN_2040,
        verdict: "notwhole 0",
        ..MEMBER
    },
    Row {
        says: "before the moment",
        chains: REHASHED,
        mode: Mode::Whole,
        verdict: "notwhole 0",
        ..MEMBER
    },
    Row {
        says: "a second early",
        chains: REHASHED,
        moment: 2_032_732_799,
        verdict: "early 20340531235959Z 20340601000000Z",
        ..MEMBER
    },
    Row {
        says: "in time",
        chains: REHASHED,
        moment: 2_032_732_800,
        ..MEMBER
    },
];

const ENDS: &[Row] = &[
    Row {
        says: "a second more",
        chains: STAMPED,
        moment: 2_051_222_399,
        ..MEMBER
    },
    Row {
        says: "the hash's end",
        chains: STAMPED,
        moment: 2_051_222_400,
        verdict: "lapsed 0 1 hash 20350101000000Z",
        ..MEMBER
    },
    Row {
        says: "a second more",
        chains: REHASHED,
        moment: 2_524_607_999,
        ..MEMBER
    },
    Row {
        says: "the key's end",
        chains: REHASHED,
        moment: 2_524_608_000,
        verdict: "lapsed 1 0 key 20500101000000Z",
        ..MEMBER
    },
];

const SHA256_BEHIND_THIRD: Terms = Terms {
    sha256: "20340601000001Z",
    ..USUAL
};

// The key has ended at the time of the second token, and SHA-256 at that of the third.
const BOTH_ENDED: Terms = Terms {
    sha256: "20340601000000Z",
    early: "20290301000000Z",
    ..USUAL
};

const OTHER_ENDS: &[Row] = &[
    Row {
        says: "early",
        chains: REHASHED,
        moment: 2_032_732_799,
        terms: &EARLY_AT_SECOND,
        verdict: "early 20340531235959Z 20340601000000Z",
        ..MEMBER
    },
    Row {
        says: "the key's end",
        chains: REHASHED,
        moment: IN_2040,
        terms: &EARLY_AT_SECOND,
        verdict: "lapsed 0 0 key 20290301000000Z",
        ..MEMBER
    },
    Row {
        says: "a second more for the key",
        chains: REHASHED,
        moment: IN_2040,
        terms: &EARLY_BEHIND_SECOND,
        ..MEMBER
    },
    Row {
        says: "its last",
        chains: STAMPED,
        moment: IN_2040,
        terms: &SHA256_AT_SECOND,
        verdict: "lapsed 0 1 hash 20290301000000Z",
        ..MEMBER
    },
    Row {
        says: "the hash's",
        chains: REHASHED,
        moment: IN_2040,
        terms: &SHA256_AT_THIRD,
        verdict: "lapsed 0 1 hash 20340601000000Z",
        ..MEMBER
    },
    Row {
        says: "a second more for the hash",
        chains: REHASHED,
        moment: IN_2040,
        terms: &SHA256_BEHIND_THIRD,
        ..MEMBER
    },
    Row {
        says: "the key's before the hash's",
        chains: REHASHED,
        moment: IN_2040,
        terms: &BOTH_ENDED,
        verdict: "lapsed 0 0 key 20290301000000Z",
        ..MEMBER
    },
    Row {
        says: "the last",
        chains: REHASHED,
        moment: 2_840_140_800,
        terms: &LATE_FOR_LONG,
        verdict: "lapsed 1 0 hash 20600101000000Z",
        ..MEMBER
    },
    Row {
        says: "a second more for the last",
        chains: REHASHED,
        moment: 2_840_140_799,
        terms: &LATE_FOR_LONG,
        ..MEMBER
    },
];

// A first list of one value, and the other two behind it.
const IN_TWO_LISTS: &[&[StampRow]] = &[&[StampRow {
    lists: &[&[6], &[7, 8]],
    ..FIRST_STAMP
}]];

const REDUCED: &[Row] = &[
    Row {
        says: "two lists",
        chains: IN_TWO_LISTS,
        ..MEMBER
    },
    Row {
        says: "two lists, whole",
        chains: IN_TWO_LISTS,
        mode: Mode::Whole,
        ..MEMBER
    },
    Row {
        says: "the second list",
        chains: IN_TWO_LISTS,
        documents: OTHER,
        verdict: "uncovered 0 0 0",
        ..MEMBER
    },
];

const FIRST_BY_SHA512: StampRow = StampRow {
    names: Some(HashAlg::Sha512),
    ..FIRST_STAMP
};

const EARLIER_BEHIND: &[&[StampRow]] = &[&[SECOND_STAMP, FIRST_STAMP]];

const EARLIER_CHAIN_BEHIND: &[&[StampRow]] = &[&[SECOND_STAMP], &[FIRST_STAMP]];

const EARLIER_AND_MIXED: &[&[StampRow]] = &[&[SECOND_STAMP, FIRST_BY_SHA512]];

// What is out of order here isn't covered either.
const ORDER: &[Row] = &[
    Row {
        says: "in a chain",
        chains: EARLIER_BEHIND,
        verdict: "order 0 1",
        ..MEMBER
    },
    Row {
        says: "in the next chain",
        chains: EARLIER_CHAIN_BEHIND,
        verdict: "order 1 0",
        ..MEMBER
    },
    Row {
        says: "mixed before",
        chains: EARLIER_AND_MIXED,
        verdict: "hash 0 1",
        ..MEMBER
    },
];
