// What no contract says: that calls succeed, over a disk in memory. Payloads, lengths and calls of the disk are worked out by hand.
ghost use Rattle.std.specs.Prelude.{IfOk};
ghost use Rattle.entry_codec.specs.Spelling.{IsEntry};

use crate::{Store, StoreFault, create};
use der_values::{Bytes, Items, zeros};
use entry_codec::{Entry, read_entry};
use ev_devices::{Crash, MemDisk};
use gate_journal::Journal;
use std::alloc::Global;
use std::test::Fail;

// Two groups: `ab` with an empty document, and `c`.
const TWO_GROUPS: &[u8] = b"\x01\x00\x00\x00\x02\
    \x00\x00\x00\x02\x00\x00\x00\x02ab\x00\x00\x00\x00\
    \x00\x00\x00\x01\x00\x00\x00\x01c";

// A group of one document of one byte.
const ONE_GROUP: &[u8] = b"\x01\x00\x00\x00\x01\x00\x00\x00\x01\x00\x00\x00\x01d";

// How a crash may leave what isn't synced.
const WAYS: [Crash; 4] = [Crash::Old, Crash::New, Crash::Torn(0), Crash::Torn(1)];

// A disk with these bytes that stops after so many calls.
fn disk(alloc: Global, bytes: Vec<u8>, stop_after: u64) -> MemDisk {
    let never = Items::from_vec(Vec::new(alloc));
    MemDisk::new(alloc, Bytes::from_vec(bytes), never, stop_after)
}

fn opened(alloc: Global, disk: MemDisk) -> Result<Store<MemDisk>, Fail> {
    match Store::open(alloc, disk) {
        Ok(store) => Ok(store),
        Err(_) => Err(Fail::from("it isn't opened")),
    }
}

// The bytes of an empty store.
fn empty(alloc: Global) -> Result<Vec<u8>, Fail> {
    let (disk, made) = create(disk(alloc, Vec::new(alloc), u64::MAX));
    match made {
        Ok(()) => Ok(disk.bytes().to_vec(alloc)?),
        Err(_) => Err(Fail::from("it isn't made")),
    }
}

fn entry(alloc: Global, payload: &[u8]) -> Result<Entry, Fail>
    ensures { IfOk result IsEntry }
{
    match read_entry(alloc, payload) {
        Ok(entry) => Ok(entry),
        Err(_) => Err(Fail::from("it is no entry")),
    }
}

// The answer to a deposit.
fn step(store: &mut Store<MemDisk>, entry: &Entry) -> Result<Result<u64, StoreFault>, Fail>
    requires { IsEntry entry.now }
{
    match entry {
        Entry::Deposit { groups: _ } => Ok(store.step(entry, &[])),
        _ => Err(Fail::from("it is no deposit")),
    }
}

// The same, as a text.
fn deposit(alloc: Global, store: &mut Store<MemDisk>, payload: &[u8]) -> Result<String, Fail> {
    let entry = entry(alloc, payload)?;
    let answer = step(store, &entry)?;
    Ok(format!(in alloc; "{:?}", answer)?)
}

// The documents of a group, each with a full stop behind it.
fn documents(alloc: Global, store: &mut Store<MemDisk>, id: u32) -> Result<Vec<u8>, Fail> {
    let Ok(group) = store.fetch(id) else {
        return Err(Fail::from("it isn't fetched"));
    };
    let mut bytes = Vec::new(alloc);
    for document in group.documents() {
        bytes.extend_from_slice(document.as_slice())?;
        bytes.push(b'.')?;
    }
    Ok(bytes)
}

#[test]
fn what_was_deposited_is_fetched_before_and_after_it_is_opened_again(
    rt: HostRuntime,
) -> Result<(), Fail> {
    let alloc = rt.alloc();
    let mut store = opened(alloc, disk(alloc, empty(alloc)?, u64::MAX))?;
    assert_eq!(&rt; deposit(alloc, &mut store, TWO_GROUPS)?.as_str(), "Ok(0)");
    assert_eq!(&rt;
        documents(alloc, &mut store, 0)?.as_slice(),
        b"ab..".as_slice()
    );
    let mut again = opened(alloc, store.close())?;
    assert_eq!(&rt; again.archive().len(), 1);
    assert_eq!(&rt;
        documents(alloc, &mut again, 0)?.as_slice(),
        b"ab..".as_slice()
    );
    assert_eq!(&rt;
        documents(alloc, &mut again, 1)?.as_slice(),
        b"c.".as_slice()
    );
    let none = again.fetch(2);
    assert!(&rt; matches!(none, Err(StoreFault::Unknown { id: 2, groups: 2 })));
    Ok(())
}

#[test]
fn a_store_with_an_entry_is_not_made_anew(rt: HostRuntime) -> Result<(), Fail> {
    let alloc = rt.alloc();
    let mut store = opened(alloc, disk(alloc, empty(alloc)?, u64::MAX))?;
    assert_eq!(&rt; deposit(alloc, &mut store, ONE_GROUP)?.as_str(), "Ok(0)");
    let (disk, made) = create(store.close());
    assert!(&rt; matches!(made, Err(StoreFault::Occupied)));
    let mut again = opened(alloc, disk)?;
    assert_eq!(&rt;
        documents(alloc, &mut again, 0)?.as_slice(),
        b"d.".as_slice()
    );
    Ok(())
}

// What a crash after each call of a step leaves: a write, a sync, a write, a sync, in this order.
#[test]
fn a_step_is_there_whole_or_not_at_all(rt: HostRuntime) -> Result<(), Fail> {
    let alloc = rt.alloc();
    let made = empty(alloc)?;
    // The entries that are left, for each of `WAYS`.
    let rows: [(u64, [u64; 4]); 5] = [
        (0, [0, 0, 0, 0]),
        (1, [0, 0, 0, 0]),
        (2, [0, 0, 0, 0]),
        (3, [0, 1, 0, 1]),
        (4, [1, 1, 1, 1]),
    ];
    for &(calls, entries) in &rows {
        for way in 0..4 {
            // Opening: a sync, a length, the header, a gate.
            let mut store = opened(alloc, disk(alloc, made.to_vec(alloc)?, 4 + calls))?;
            let answer = deposit(alloc, &mut store, TWO_GROUPS)?;
            assert_eq!(&rt; answer.as_str() == "Ok(0)", calls == 4);
            let left = store.close().crash(WAYS[way])?;
            assert_eq!(&rt; opened(alloc, left)?.archive().len(), entries[way]);
        }
    }
    Ok(())
}

#[test]
fn no_step_is_taken_after_one_that_the_disk_failed(rt: HostRuntime) -> Result<(), Fail> {
    let alloc = rt.alloc();
    let mut store = opened(alloc, disk(alloc, empty(alloc)?, 4 + 4 + 3))?;
    assert_eq!(&rt; deposit(alloc, &mut store, TWO_GROUPS)?.as_str(), "Ok(0)");
    assert_eq!(&rt;
        deposit(alloc, &mut store, ONE_GROUP)?.as_str(),
        "Err(DiskFault)"
    );
    assert_eq!(&rt;
        deposit(alloc, &mut store, ONE_GROUP)?.as_str(),
        "Err(Closed { place: 1 })"
    );
    assert!(&rt; matches!(store.fetch(0), Err(StoreFault::DiskFault)));
    Ok(())
}

// A read that fails once: opening makes four calls, the step four, and the first fetch two.
#[test]
fn a_fetch_that_the_disk_failed_is_done_again(rt: HostRuntime) -> Result<(), Fail> {
    let alloc = rt.alloc();
    let failing = Items::from_vec(Vec::from_slice(alloc, &[9])?);
    let device = MemDisk::new(alloc, Bytes::from_vec(empty(alloc)?), failing, u64::MAX);
    let mut store = opened(alloc, device)?;
    assert_eq!(&rt; deposit(alloc, &mut store, TWO_GROUPS)?.as_str(), "Ok(0)");
    assert!(&rt; matches!(store.fetch(0), Err(StoreFault::DiskFault)));
    assert_eq!(&rt;
        documents(alloc, &mut store, 0)?.as_slice(),
        b"ab..".as_slice()
    );
    assert_eq!(&rt; deposit(alloc, &mut store, ONE_GROUP)?.as_str(), "Ok(1)");
    Ok(())
}

// The payloads of two frames, and why a store isn't opened over them.
struct Refused {
    first: &'static [u8],
    second: &'static [u8],
    fault: &'static str,
}

const REFUSED: &[Refused] = &[
    // A kind that is none.
    Refused {
        first: b"\x06",
        second: ONE_GROUP,
        fault: "BadEntry { entry: 0, place: 0 }",
    },
    // A deposit that is cut short.
    Refused {
        first: ONE_GROUP,
        second: b"\x01\x00\x00\x00\x01\x00\x00\x00\x01\x00\x00\x00",
        fault: "BadEntry { entry: 1, place: 12 }",
    },
    // A seal of two groups after one.
    Refused {
        first: ONE_GROUP,
        second: b"\x02\x01\x00\x00\x00\x02\x00\x00\x00\x01t",
        fault: "Illegal { entry: 1, rule: Count { count: 2, pending: 1 } }",
    },
    // A text that is no policy.
    Refused {
        first: ONE_GROUP,
        second: b"\x05\x00\x00\x00\x02p\x0a",
        fault: "Illegal { entry: 1, rule: BadPolicy { line: 1, kind: Header } }",
    },
];

// A disk with a journal of these payloads.
fn journal(alloc: Global, payloads: [&[u8]; 2]) -> Result<MemDisk, Fail> {
    let Ok(mut journal) = Journal::open(alloc, disk(alloc, empty(alloc)?, u64::MAX)) else {
        return Err(Fail::from("it isn't opened"));
    };
    for payload in payloads {
        journal.reserve()?;
        if payload.len() > 64 {
            return Err(Fail::from("it is too long"));
        }
        if journal.append(payload).is_err() {
            return Err(Fail::from("it isn't added"));
        }
    }
    Ok(journal.close())
}

#[test]
fn a_journal_is_refused_at_its_first_entry_that_is_not_legal(rt: HostRuntime) -> Result<(), Fail> {
    let alloc = rt.alloc();
    for row in REFUSED {
        let journal = journal(alloc, [row.first, row.second])?;
        let Err((_, fault)) = Store::open(alloc, journal) else {
            return Err(Fail::from("it is opened"));
        };
        let text = format!(in alloc; "{:?}", fault)?;
        assert_eq!(&rt; text.as_str(), row.fault);
    }
    Ok(())
}

// A limit: a deposit has 64 groups of so many documents of so many bytes; so many of them are taken, and a group of a document of one
// byte is refused. The last group is there, and the journal has so many bytes: 17, and of each deposit its payload and 37.
struct Limit {
    documents: u8,
    size: u32,
    deposits: u64,
    refusal: &'static str,
    last: u32,
    length: usize,
}

const LIMITS: &[Limit] = &[
    Limit {
        documents: 1,
        size: 0,
        deposits: 1_024,
        refusal: "Err(Refused(Limit(Groups(65537))))",
        last: 65_535,
        length: 567_313,
    },
    Limit {
        documents: 64,
        size: 0,
        deposits: 256,
        refusal: "Err(Refused(Limit(Documents(1048577))))",
        last: 16_383,
        length: 4_270_609,
    },
    Limit {
        documents: 2,
        size: 65_536,
        deposits: 32,
        refusal: "Err(Refused(Limit(Bytes(268435457))))",
        last: 2_047,
        length: 268_461_393,
    },
];

// A deposit of 64 groups of so many documents, each of so many zeros.
fn sixty_four_groups(alloc: Global, documents: u8, size: u32) -> Result<Vec<u8>, Fail> {
    let zeros = zeros(alloc, size as usize)?;
    let mut payload = Vec::from_slice(alloc, b"\x01\x00\x00\x00\x40")?;
    for _ in 0..64 {
        payload.extend_from_slice(&u32::from(documents).to_be_bytes())?;
        for _ in 0..documents {
            payload.extend_from_slice(&size.to_be_bytes())?;
            payload.extend_from_slice(&zeros)?;
        }
    }
    Ok(payload)
}

// Adds so many of this deposit.
fn fill(store: &mut Store<MemDisk>, entry: &Entry, deposits: u64) -> Result<(), Fail>
    requires { IsEntry entry.now }
{
    for _ in 0..deposits {
        if step(store, entry)?.is_err() {
            return Err(Fail::from("it isn't taken"));
        }
    }
    Ok(())
}

#[test]
fn what_passes_a_limit_is_refused_and_nothing_is_written(rt: HostRuntime) -> Result<(), Fail> {
    let alloc = rt.alloc();
    for limit in LIMITS {
        let payload = sixty_four_groups(alloc, limit.documents, limit.size)?;
        let many = entry(alloc, &payload)?;
        let mut store = opened(alloc, disk(alloc, empty(alloc)?, u64::MAX))?;
        fill(&mut store, &many, limit.deposits)?;
        assert_eq!(&rt;
            deposit(alloc, &mut store, ONE_GROUP)?.as_str(),
            limit.refusal
        );
        assert!(&rt; store.fetch(limit.last).is_ok());
        assert_eq!(&rt; store.close().bytes().len(), limit.length);
    }
    Ok(())
}
