// Three time-stamps in one chain and in three chains, each lapsing at its place. What is expected follows from the ends of the
// policy: a time-stamp lapses where its key or, at the end of its chain, its hash ended before the next one came.
use crate::policies::{Terms, USUAL};
use crate::records::{StampRow, sequence};
use crate::rows::{MEMBER, Row};
use crate::tests::{
    EARLY_AT_SECOND, EARLY_BEHIND_SECOND, FIRST_STAMP, LATE_FOR_LONG, SECOND_STAMP,
    SHA256_AT_SECOND, SHA256_AT_THIRD, assert_each,
};
use crate::tokens::{FIRST, Made, SECOND, THIRD, pair};
use crate::values::{later_value, sha256};
use hash_kit::HashAlg;
use std::alloc::Global;
use std::test::Fail;

// The early authority stamps `abc`, and the late one the token, twice.
fn three_in_a_chain(alloc: Global) -> Result<Made, Fail> {
    let mut pair = pair(alloc)?;
    let mut made = Made::new(alloc);
    made.stamp(&mut pair, FIRST, &sha256(b"abc"))?;
    made.stamp_again(&mut pair, SECOND, HashAlg::Sha256)?;
    made.stamp_again(&mut pair, THIRD, HashAlg::Sha256)?;
    Ok(made)
}

// The early authority stamps `abc`, and the late one the chains so far, twice, by SHA-512.
fn three_chains(alloc: Global) -> Result<Made, Fail> {
    let mut pair = pair(alloc)?;
    let mut made = Made::new(alloc);
    made.stamp(&mut pair, FIRST, &sha256(b"abc"))?;
    let older = sequence(alloc, &made, ONE_CHAIN)?;
    made.stamp(&mut pair, SECOND, &later_value(b"abc", &older))?;
    let older = sequence(alloc, &made, TWO_CHAINS)?;
    made.stamp(&mut pair, THIRD, &later_value(b"abc", &older))?;
    Ok(made)
}

const THIRD_STAMP: StampRow = StampRow {
    token: 2,
    ..FIRST_STAMP
};

const CHAIN: &[&[StampRow]] = &[&[FIRST_STAMP, SECOND_STAMP, THIRD_STAMP]];

const SECOND_BY_SHA512: StampRow = StampRow {
    names: Some(HashAlg::Sha512),
    ..SECOND_STAMP
};

const THIRD_BY_SHA512: StampRow = StampRow {
    names: Some(HashAlg::Sha512),
    ..THIRD_STAMP
};

const ONE_CHAIN: &[&[StampRow]] = &[&[FIRST_STAMP]];

const TWO_CHAINS: &[&[StampRow]] = &[&[FIRST_STAMP], &[SECOND_BY_SHA512]];

const CHAINS: &[&[StampRow]] = &[&[FIRST_STAMP], &[SECOND_BY_SHA512], &[THIRD_BY_SHA512]];

#[test]
fn each_of_three_time_stamps_lapses_at_its_place(rt: HostRuntime) -> Result<(), Fail> {
    let made = three_in_a_chain(rt.alloc())?;
    assert_each(&rt, &made, IN_A_CHAIN)
}

#[test]
fn each_of_three_chains_lapses_at_its_place(rt: HostRuntime) -> Result<(), Fail> {
    let made = three_chains(rt.alloc())?;
    assert_each(&rt, &made, IN_CHAINS)
}

// Further ends at the times of the second and the third token, and a second later.
const LATE_AT_THIRD: Terms = Terms {
    late: "20340601000000Z",
    ..USUAL
};

const LATE_BEHIND_THIRD: Terms = Terms {
    late: "20340601000001Z",
    ..USUAL
};

// Each key has ended when the next time-stamp comes.
const KEYS_AT_THE_NEXT: Terms = Terms {
    early: "20290301000000Z",
    late: "20340601000000Z",
    ..USUAL
};

const SHA256_BEHIND_SECOND: Terms = Terms {
    sha256: "20290301000001Z",
    ..USUAL
};

const SHA512_AT_THIRD: Terms = Terms {
    sha512: "20340601000000Z",
    ..USUAL
};

const SHA512_BEHIND_THIRD: Terms = Terms {
    sha512: "20340601000001Z",
    ..USUAL
};

// SHA-256 outlives the late authority.
const SHA256_FOR_LONG: Terms = Terms {
    sha256: "20700101000000Z",
    ..USUAL
};

// 2034-07-01, after the third token.
const IN_2034: u32 = 2_035_324_800;

const IN_A_CHAIN: &[Row] = &[
    Row {
        says: "all in time",
        chains: CHAIN,
        moment: IN_2034,
        ..MEMBER
    },
    Row {
        says: "the first",
        chains: CHAIN,
        moment: IN_2034,
        terms: &EARLY_AT_SECOND,
        verdict: "lapsed 0 0 key 20290301000000Z",
        ..MEMBER
    },
    Row {
        says: "the first in time",
        chains: CHAIN,
        moment: IN_2034,
        terms: &EARLY_BEHIND_SECOND,
        ..MEMBER
    },
    Row {
        says: "the second",
        chains: CHAIN,
        moment: IN_2034,
        terms: &LATE_AT_THIRD,
        verdict: "lapsed 0 1 key 20340601000000Z",
        ..MEMBER
    },
    Row {
        says: "the third, a second behind",
        chains: CHAIN,
        moment: IN_2034,
        terms: &LATE_BEHIND_THIRD,
        verdict: "lapsed 0 2 key 20340601000001Z",
        ..MEMBER
    },
    Row {
        says: "the second in time",
        chains: CHAIN,
        moment: 2_032_732_800,
        terms: &LATE_BEHIND_THIRD,
        ..MEMBER
    },
    Row {
        says: "the first before the second",
        chains: CHAIN,
        moment: IN_2034,
        terms: &KEYS_AT_THE_NEXT,
        verdict: "lapsed 0 0 key 20290301000000Z",
        ..MEMBER
    },
    Row {
        says: "the hash is that of the last",
        chains: CHAIN,
        moment: IN_2034,
        terms: &SHA256_AT_SECOND,
        verdict: "lapsed 0 2 hash 20290301000000Z",
        ..MEMBER
    },
    Row {
        says: "a second before the hash's end",
        chains: CHAIN,
        moment: 2_051_222_399,
        ..MEMBER
    },
    Row {
        says: "the third by its hash",
        chains: CHAIN,
        moment: 2_051_222_400,
        verdict: "lapsed 0 2 hash 20350101000000Z",
        ..MEMBER
    },
    Row {
        says: "a second before the key's end",
        chains: CHAIN,
        moment: 2_524_607_999,
        terms: &SHA256_FOR_LONG,
        ..MEMBER
    },
    Row {
        says: "the third by its key",
        chains: CHAIN,
        moment: 2_524_608_000,
        terms: &SHA256_FOR_LONG,
        verdict: "lapsed 0 2 key 20500101000000Z",
        ..MEMBER
    },
];

const IN_CHAINS: &[Row] = &[
    Row {
        says: "all in time",
        chains: CHAINS,
        moment: IN_2034,
        ..MEMBER
    },
    Row {
        says: "the first by its key",
        chains: CHAINS,
        moment: IN_2034,
        terms: &EARLY_AT_SECOND,
        verdict: "lapsed 0 0 key 20290301000000Z",
        ..MEMBER
    },
    Row {
        says: "the first by its hash",
        chains: CHAINS,
        moment: IN_2034,
        terms: &SHA256_AT_SECOND,
        verdict: "lapsed 0 0 hash 20290301000000Z",
        ..MEMBER
    },
    Row {
        says: "the first in time",
        chains: CHAINS,
        moment: IN_2034,
        terms: &SHA256_BEHIND_SECOND,
        ..MEMBER
    },
    Row {
        says: "the hash of a chain that is renewed",
        chains: CHAINS,
        moment: IN_2034,
        terms: &SHA256_AT_THIRD,
        ..MEMBER
    },
    Row {
        says: "the second by its key",
        chains: CHAINS,
        moment: IN_2034,
        terms: &LATE_AT_THIRD,
        verdict: "lapsed 1 0 key 20340601000000Z",
        ..MEMBER
    },
    Row {
        says: "the second by its hash",
        chains: CHAINS,
        moment: IN_2034,
        terms: &SHA512_AT_THIRD,
        verdict: "lapsed 1 0 hash 20340601000000Z",
        ..MEMBER
    },
    Row {
        says: "the second in time",
        chains: CHAINS,
        moment: 2_032_732_800,
        terms: &SHA512_BEHIND_THIRD,
        ..MEMBER
    },
    Row {
        says: "the first before the second",
        chains: CHAINS,
        moment: IN_2034,
        terms: &KEYS_AT_THE_NEXT,
        verdict: "lapsed 0 0 key 20290301000000Z",
        ..MEMBER
    },
    Row {
        says: "a second before the key's end",
        chains: CHAINS,
        moment: 2_524_607_999,
        ..MEMBER
    },
    Row {
        says: "the third by its key",
        chains: CHAINS,
        moment: 2_524_608_000,
        verdict: "lapsed 2 0 key 20500101000000Z",
        ..MEMBER
    },
    Row {
        says: "a second before the hash's end",
        chains: CHAINS,
        moment: 2_840_140_799,
        terms: &LATE_FOR_LONG,
        ..MEMBER
    },
    Row {
        says: "the third by its hash",
        chains: CHAINS,
        moment: 2_840_140_800,
        terms: &LATE_FOR_LONG,
        verdict: "lapsed 2 0 hash 20600101000000Z",
        ..MEMBER
    },
];
