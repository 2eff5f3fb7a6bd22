// Records with a token that is not sound, one at least for each check, and what is judged before and after it. Places are counted
// by hand along the grammar.
use crate::policies::{LATE_CERTIFICATE, Terms, USUAL, policy};
use crate::records::{StampRow, record};
use crate::rows::{MEMBER, Row};
use crate::tests::{
    FIRST_STAMP, IN_A_CHAIN, IN_TWO_CHAINS, MISNAMED, NOTHING, PLAIN, SECOND_STAMP, assert_each,
    assert_verdict, of_abc, padded, turned,
};
use crate::tokens::{FIRST, Made, authority};
use crate::values::sha256;
use std::alloc::Global;
use std::process::Abort;
use std::test::Fail;

// In the token stand the types at 14 and 55, the version at 25, the info's version at 64, its hash up to 84 and its serial number
// at 121, the signer's version at 152, its identifier up to 174, its hash up to 187, the type of the second attribute up to 231,
// the certificate's hash from 293 on, and the signature's type up to 339.
const TURNS: &[(usize, u8, &str)] = &[
    (4, 0x01, "stamp 0 0 cms der 4 wrongtag"),
    (14, 0x01, "stamp 0 0 cms notsigneddata"),
    (25, 0x01, "stamp 0 0 cms version"),
    (55, 0x01, "stamp 0 0 cms contenttype"),
    (64, 0x03, "stamp 0 0 tst 2 version"),
    (84, 0x05, "stamp 0 0 hashunknown"),
    (121, 0x03, "stamp 0 0 messagedigest"),
    (152, 0x02, "stamp 0 0 cms signerversion"),
    (174, 0x01, "stamp 0 0 unknownsigner"),
    (187, 0x03, "stamp 0 0 cms digestalg"),
    (231, 0x01, "stamp 0 0 cms missingattr messagedigest"),
    (231, 0x07, "stamp 0 0 cms doubleattr contenttype"),
    (293, 0x01, "stamp 0 0 certhash"),
    (339, 0x01, "stamp 0 0 cms signaturealg"),
    (5099, 0x01, "stamp 0 0 badsignature"),
];

#[test]
fn a_token_that_is_not_sound_is_named_with_its_check(rt: HostRuntime) -> Result<(), Fail> {
    let alloc = rt.alloc();
    let made = of_abc(alloc)?;
    let first = made.token(0)?;
    assert_eq!(&rt; first.len(), 5100);
    assert_turns(&rt, first)?;
    assert_each(&rt, &unsound(alloc, first)?, UNSOUND)
}

fn assert_turns(rt: &(impl Abort + AllocGlobal), token: &[u8]) -> Result<(), Fail> {
    let policy = policy(rt.alloc(), &USUAL)?;
    for &(place, mask, verdict) in TURNS {
        let evidence = with_turned(rt.alloc(), token, place, mask)?;
        assert_verdict(rt, &policy, &evidence, verdict, "a byte turned")?;
    }
    Ok(())
}

// A record whose token has a byte turned.
fn with_turned(alloc: Global, token: &[u8], place: usize, mask: u8) -> Result<Vec<u8>, Fail> {
    let mut made = Made::new(alloc);
    made.add_token(&turned(alloc, token, place, mask)?)?;
    Ok(record(alloc, &made, PLAIN)?)
}

// The token, with its last byte turned, of a third authority, nothing, 65,536 and 65,537 bytes.
fn unsound(alloc: Global, first: &[u8]) -> Result<Made, Fail> {
    let mut made = Made::new(alloc);
    made.add_token(first)?;
    made.add_token(&turned(alloc, first, 5099, 0x01)?)?;
    made.stamp(&mut authority(alloc, 3)?, FIRST, &sha256(b"abc"))?;
    made.add_token(NOTHING)?;
    made.add_token(&padded(alloc, b"\x30\x82\xff\xfc", 65_532)?)?;
    made.add_token(&padded(alloc, b"\x30\x82\xff\xfd", 65_533)?)?;
    Ok(made)
}

const OF_A_THIRD: &[&[StampRow]] = &[&[StampRow {
    token: 2,
    ..FIRST_STAMP
}]];

const OF_NOTHING: &[&[StampRow]] = &[&[StampRow {
    token: 3,
    ..FIRST_STAMP
}]];

const LONGEST: &[&[StampRow]] = &[&[StampRow {
    token: 4,
    ..FIRST_STAMP
}]];

const TOO_LONG: &[&[StampRow]] = &[&[StampRow {
    token: 5,
    ..FIRST_STAMP
}]];

const OTHER_CERTIFICATE: Terms = Terms {
    certificate: LATE_CERTIFICATE,
    ..USUAL
};

const MISNAMED_FIRST: &[&[StampRow]] = &[&[MISNAMED, SECOND_STAMP]];

const UNSOUND: &[Row] = &[
    Row {
        says: "as it was",
        chains: PLAIN,
        ..MEMBER
    },
    Row {
        says: "a third",
        chains: OF_A_THIRD,
        verdict: "stamp 0 0 unknownsigner",
        ..MEMBER
    },
    Row {
        says: "an empty token",
        chains: OF_NOTHING,
        verdict: "stamp 0 0 cms der 2 truncated",
        ..MEMBER
    },
    Row {
        says: "65,536 bytes",
        chains: LONGEST,
        verdict: "stamp 0 0 cms der 4 wrongtag",
        ..MEMBER
    },
    Row {
        says: "65,537 bytes",
        chains: TOO_LONG,
        verdict: "stamp 0 0 toolong",
        ..MEMBER
    },
    Row {
        says: "the second",
        chains: IN_A_CHAIN,
        verdict: "stamp 0 1 badsignature",
        ..MEMBER
    },
    Row {
        says: "the next chain",
        chains: IN_TWO_CHAINS,
        verdict: "stamp 1 0 badsignature",
        ..MEMBER
    },
    Row {
        says: "before mixed hashes",
        chains: MISNAMED_FIRST,
        verdict: "stamp 0 1 badsignature",
        ..MEMBER
    },
    Row {
        says: "after the syntax",
        chains: IN_TWO_CHAINS,
        behind: b"\0",
        verdict: "syntax 10281 trailing",
        ..MEMBER
    },
    Row {
        says: "another certificate",
        chains: PLAIN,
        terms: &OTHER_CERTIFICATE,
        verdict: "stamp 0 0 certhash",
        ..MEMBER
    },
];
