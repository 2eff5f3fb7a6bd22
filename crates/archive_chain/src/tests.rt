// Deposits, their limits, and the rules that need no token. The payloads and the numbers are worked out by hand.
ghost use Rattle.std.specs.Prelude.{IfOk};
ghost use Rattle.entry_codec.specs.Spelling.{IsEntry};

use crate::{Archive, Refusal};
use entry_codec::{Entry, read_entry};
use std::alloc::Global;
use std::test::Fail;

// Three groups: `ab` with an empty document, and two of an empty document.
const THREE_GROUPS: &[u8] = b"\x01\x00\x00\x00\x03\
    \x00\x00\x00\x02\x00\x00\x00\x02ab\x00\x00\x00\x00\
    \x00\x00\x00\x01\x00\x00\x00\x00\
    \x00\x00\x00\x01\x00\x00\x00\x00";

// How many entries a test adds at most.
const MOST_ENTRIES: u64 = 2000;

fn entry(alloc: Global, payload: &[u8]) -> Result<Entry, Fail>
    ensures { IfOk result IsEntry }
{
    match read_entry(alloc, payload) {
        Ok(entry) => Ok(entry),
        Err(_) => Err(Fail::from("it is no entry")),
    }
}

// The answer of the archive to an entry that has no leaves; an entry that is ready is added.
fn answer(alloc: Global, archive: &mut Archive, entry: &Entry) -> Result<Result<u64, Refusal>, Fail>
    requires { IsEntry entry.now }
{
    if archive.len() >= MOST_ENTRIES {
        return Err(Fail::from("there are too many entries"));
    }
    let reserved = match entry {
        Entry::Deposit { groups: _ } => archive.reserve(alloc, entry, &[]),
        Entry::SetPolicy { text: _ } => archive.reserve(alloc, entry, &[]),
        _ => return Err(Fail::from("it has leaves")),
    };
    match reserved {
        Ok(ready) => Ok(Ok(archive.commit(ready))),
        Err(refusal) => Ok(Err(refusal)),
    }
}

fn added(alloc: Global, archive: &mut Archive, payload: &[u8]) -> Result<u64, Fail> {
    let entry = entry(alloc, payload)?;
    match answer(alloc, archive, &entry)? {
        Ok(number) => Ok(number),
        Err(_) => Err(Fail::from("it is refused")),
    }
}

#[test]
fn a_new_archive_has_nothing(rt: HostRuntime) -> Result<(), Fail> {
    let archive = Archive::new(rt.alloc())?;
    assert_eq!(&rt; archive.len(), 0);
    assert_eq!(&rt; archive.groups(), 0);
    assert_eq!(&rt; archive.cohorts().len(), 0);
    assert_eq!(&rt; archive.stamps(0), 0);
    assert_eq!(&rt; archive.cover_from(0, 0), None);
    assert_eq!(&rt; archive.last_token(0), &b""[..]);
    assert_eq!(&rt; archive.coverings(rt.alloc(), 0)?.as_slice().len(), 0);
    Ok(())
}

#[test]
fn what_was_deposited_is_pending(rt: HostRuntime) -> Result<(), Fail> {
    let mut archive = Archive::new(rt.alloc())?;
    assert_eq!(&rt; added(rt.alloc(), &mut archive, THREE_GROUPS)?, 0);
    assert_eq!(&rt; added(rt.alloc(), &mut archive, THREE_GROUPS)?, 1);
    assert_eq!(&rt; archive.len(), 2);
    assert_eq!(&rt; archive.groups(), 6);
    assert_eq!(&rt; archive.pending(), 6);
    assert!(&rt; !archive.covered(0));
    Ok(())
}

// A payload, and the rule that it breaks before its token, over three pending groups.
struct Row {
    payload: &'static [u8],
    rule: &'static str,
}

const ROWS: &[Row] = &[
    Row {
        payload: b"\x02\x01\x00\x00\x00\x00\x00\x00\x00\x00",
        rule: "Some(Count { count: 0, pending: 3 })",
    },
    Row {
        payload: b"\x02\x01\x00\x00\x00\x04\x00\x00\x00\x00",
        rule: "Some(Count { count: 4, pending: 3 })",
    },
    Row {
        payload: b"\x02\x01\x00\x00\x00\x03\x00\x00\x00\x00",
        rule: "None",
    },
    Row {
        payload: b"\x03\x01\x00\x00\x00\x01\x00\x00\x00\x01\x00\x00\x00\x00",
        rule: "Some(NotLive { cohort: 1 })",
    },
    Row {
        payload: b"\x04\x03\x00\x00\x00\x02\x00\x00\x00\x00\x00\x00\x00\x07\x00\x00\x00\x00",
        rule: "Some(NotLive { cohort: 0 })",
    },
    Row {
        payload: b"\x05\x00\x00\x00\x01p",
        rule: "None",
    },
];

#[test]
fn the_first_rule_before_the_token_is_named(rt: HostRuntime) -> Result<(), Fail> {
    let mut archive = Archive::new(rt.alloc())?;
    added(rt.alloc(), &mut archive, THREE_GROUPS)?;
    for row in ROWS {
        let entry = entry(rt.alloc(), row.payload)?;
        let rule = format!(in rt.alloc(); "{:?}", archive.shape(&entry))?;
        assert_eq!(&rt; rule.as_str(), row.rule);
    }
    Ok(())
}

// A deposit of 64 groups, each of so many documents, which are empty.
fn empty_groups(alloc: Global, documents: u8) -> Result<Vec<u8>, Fail> {
    let mut payload = Vec::from_slice(alloc, b"\x01\x00\x00\x00\x40")?;
    for _ in 0..64 {
        payload.extend_from_slice(b"\x00\x00\x00")?;
        payload.push(documents)?;
        for _ in 0..documents {
            payload.extend_from_slice(b"\x00\x00\x00\x00")?;
        }
    }
    Ok(payload)
}

// So many such deposits, and what the archive answers to three groups more.
fn after_deposits(alloc: Global, payload: &[u8], count: u32) -> Result<Option<Refusal>, Fail> {
    let mut archive = Archive::new(alloc)?;
    let deposit = entry(alloc, payload)?;
    for _ in 0..count {
        if let Err(refusal) = answer(alloc, &mut archive, &deposit)? {
            return Ok(Some(refusal));
        }
    }
    let last = entry(alloc, THREE_GROUPS)?;
    Ok(answer(alloc, &mut archive, &last)?.err())
}

#[test]
fn no_more_than_65_536_groups_are_taken(rt: HostRuntime) -> Result<(), Fail> {
    let payload = empty_groups(rt.alloc(), 1)?;
    let refusal = after_deposits(rt.alloc(), payload.as_slice(), 1024)?;
    let rule = format!(in rt.alloc(); "{:?}", refusal)?;
    assert_eq!(&rt; rule.as_str(), "Some(Limit(Groups(65539)))");
    Ok(())
}

#[test]
fn no_more_than_1_048_576_documents_are_taken(rt: HostRuntime) -> Result<(), Fail> {
    let payload = empty_groups(rt.alloc(), 64)?;
    let refusal = after_deposits(rt.alloc(), payload.as_slice(), 256)?;
    let rule = format!(in rt.alloc(); "{:?}", refusal)?;
    assert_eq!(&rt; rule.as_str(), "Some(Limit(Documents(1048580)))");
    Ok(())
}

#[test]
fn a_text_that_is_no_policy_is_refused_at_its_line(rt: HostRuntime) -> Result<(), Fail> {
    let mut archive = Archive::new(rt.alloc())?;
    let entry = entry(rt.alloc(), b"\x05\x00\x00\x00\x02p\x0a")?;
    match answer(rt.alloc(), &mut archive, &entry)? {
        Err(Refusal::BadPolicy { line, kind: _ }) => assert_eq!(&rt; line, 1),
        _ => return Err(Fail::from("it is refused as a policy")),
    }
    assert_eq!(&rt; archive.len(), 0);
    Ok(())
}

#[test]
fn a_deposit_is_taken_by_its_numbers(rt: HostRuntime) -> Result<(), Fail> {
    let mut archive = Archive::new(rt.alloc())?;
    let taken = archive.take_deposit(1, 1, 2);
    assert!(&rt; taken.is_ok());
    assert_eq!(&rt; archive.len(), 1);
    assert_eq!(&rt; archive.pending(), 1);
    Ok(())
}
