// Bytes that are no record, one at least for each fault. Places are counted by hand along the grammar.
use crate::policies::{USUAL, policy};
use crate::records::{StampRow, record};
use crate::rows::{MEMBER, Row};
use crate::tests::{LISTED, NOTHING, assert_each, assert_verdict, changed, of_abc, padded};
use crate::tokens::Made;
use algorithm_policy::Policy;
use std::alloc::Global;
use std::process::Abort;
use std::test::Fail;

const CHANGES: &[(usize, u8, &str)] = &[
    (0, 0x31, "syntax 0 wrongtag"),
    (0, 0x3f, "syntax 0 hightag"),
    (1, 0x80, "syntax 1 indefinite"),
    (1, 0x85, "syntax 1 longform"),
    (2, 0x00, "syntax 1 notminimal"),
    (2, 0x15, "syntax 5185 truncated"),
    (5, 0x00, "syntax 4 badvalue"),
    (6, 0x02, "syntax 4 version"),
    (48, 0x00, "syntax 47 empty"),
    (50, 0x00, "syntax 49 empty"),
    (52, 0x00, "syntax 51 valuelength"),
];

const NO_CHAIN: &[&[StampRow]] = &[];

const NO_STAMP: &[&[StampRow]] = &[&[]];

const SHAPES: &[Row] = &[
    Row {
        says: "as it was",
        chains: LISTED,
        ..MEMBER
    },
    Row {
        says: "a byte more",
        chains: LISTED,
        behind: b"\0",
        verdict: "syntax 5185 trailing",
        ..MEMBER
    },
    Row {
        says: "no chain",
        chains: NO_CHAIN,
        verdict: "syntax 20 empty",
        ..MEMBER
    },
    Row {
        says: "no time-stamp",
        chains: NO_STAMP,
        verdict: "syntax 22 empty",
        ..MEMBER
    },
];

#[test]
fn bytes_that_are_no_record_have_their_first_fault(rt: HostRuntime) -> Result<(), Fail> {
    let alloc = rt.alloc();
    let made = of_abc(alloc)?;
    let good = record(alloc, &made, LISTED)?;
    assert_eq!(&rt; good.len(), 5185);
    let policy = policy(alloc, &USUAL)?;
    assert_changes(&rt, &policy, &good)?;
    assert_each(&rt, &made, SHAPES)?;
    assert_limits(&rt, &policy)
}

fn assert_changes(
    rt: &(impl Abort + AllocGlobal),
    policy: &Policy,
    good: &[u8],
) -> Result<(), Fail> {
    for &(place, byte, verdict) in CHANGES {
        let bytes = changed(rt.alloc(), good, place, byte)?;
        assert_verdict(rt, policy, &bytes, verdict, "a byte changed")?;
    }
    Ok(())
}

// 200 time-stamps and 2^24 bytes are the most.
fn assert_limits(rt: &(impl Abort + AllocGlobal), policy: &Policy) -> Result<(), Fail> {
    let alloc = rt.alloc();
    let most = of_stamps(alloc, 200)?;
    let no_value = "stamp 0 0 cms der 2 truncated";
    assert_verdict(rt, policy, &most, no_value, "200 time-stamps")?;
    let too_many = of_stamps(alloc, 201)?;
    assert_verdict(rt, policy, &too_many, "syntax 830 toomany", "201")?;
    let longest = padded(alloc, &[], 16_777_216)?;
    let no_sequence = "syntax 0 wrongtag";
    assert_verdict(rt, policy, &longest, no_sequence, "16,777,216 zeros")?;
    let too_long = padded(alloc, &[], 16_777_217)?;
    assert_verdict(rt, policy, &too_long, "syntax 0 toolong", "one more")
}

// A record of so many time-stamps with nothing in their tokens.
fn of_stamps(alloc: Global, number: u32) -> Result<Vec<u8>, Fail> {
    let mut made = Made::new(alloc);
    made.add_token(NOTHING)?;
    let mut stamps = Vec::new(alloc);
    for _ in 0..number {
        stamps.push(StampRow {
            names: None,
            lists: &[],
            token: 0,
        })?;
    }
    Ok(record(alloc, &made, &[&stamps])?)
}
