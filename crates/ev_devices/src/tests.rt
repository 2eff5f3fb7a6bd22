// Devices in memory, each through its trait. What a crash leaves is written out by hand.
ghost use Rattle.std.specs.Prelude.{◌≡◌, IfOk};

use crate::{BendAt, Bent, Crash, MemDisk, MemSink, MemSource, Scripted};
use civil_moment::Moment;
use der_values::{Bytes, Items};
use ev_world::{Authority, Disk, Sink, Source, StampFault};
use std::alloc::{AllocError, Global};
use std::test::Fail;

const NOW: Moment = Moment {
    seconds: 1_767_614_400,
    nanos: 0,
};

fn bytes(alloc: Global, text: &[u8]) -> Result<Bytes, AllocError>
    ensures { IfOk result (λ bytes. bytes ≡ text.now) }
{
    Ok(Bytes::from_vec(Vec::from_slice(alloc, text)?))
}

fn numbers(alloc: Global, failing: &[u64]) -> Result<Items<u64>, AllocError> {
    Ok(Items::from_vec(failing.to_vec(alloc)?))
}

fn replies(alloc: Global, texts: &[Option<&[u8]>]) -> Result<Items<Option<Bytes>>, AllocError> {
    let mut replies = Vec::new(alloc);
    for text in texts {
        let reply = match text {
            Some(text) => Some(bytes(alloc, text)?),
            None => None,
        };
        replies.push(reply)?;
    }
    Ok(Items::from_vec(replies))
}

// A disk with `abcd`, then `xy` over the place 1 and a sync, then `pqr` over the place 3, which is past the end by two.
fn written(alloc: Global, stop_after: u64) -> Result<MemDisk, Fail> {
    let mut disk = MemDisk::new(
        alloc,
        bytes(alloc, b"abcd")?,
        numbers(alloc, &[])?,
        stop_after,
    );
    let _ = disk.write_at(1, b"xy");
    let _ = disk.sync();
    let _ = disk.write_at(3, b"pqr");
    Ok(disk)
}

#[test]
fn a_source_gives_its_bytes_and_fails_where_it_is_told_to(rt: HostRuntime) -> Result<(), Fail> {
    let alloc = rt.alloc();
    let mut source = MemSource::new(bytes(alloc, b"abcde")?, numbers(alloc, &[1])?);
    let mut out = [0; 3];
    assert_eq!(&rt; source.read(&mut out).ok(), Some(3));
    assert_eq!(&rt; out.as_slice(), b"abc".as_slice());
    assert!(&rt; source.read(&mut out).is_err());
    assert_eq!(&rt; source.read(&mut out).ok(), Some(2));
    assert_eq!(&rt; out.as_slice(), b"dec".as_slice());
    assert_eq!(&rt; source.read(&mut out).ok(), Some(0));
    Ok(())
}

#[test]
fn a_sink_takes_no_more_than_its_most(rt: HostRuntime) -> Result<(), Fail> {
    let alloc = rt.alloc();
    let mut sink = MemSink::new(alloc, numbers(alloc, &[1])?, 2);
    assert_eq!(&rt; sink.write(b"abc").ok(), Some(2));
    assert!(&rt; sink.write(b"c").is_err());
    assert_eq!(&rt; sink.write(b"c").ok(), Some(1));
    assert_eq!(&rt; sink.taken(), b"abc".as_slice());
    Ok(())
}

#[test]
fn a_crash_drops_keeps_or_fills_what_is_not_synced(rt: HostRuntime) -> Result<(), Fail> {
    let alloc = rt.alloc();
    let rows: [(u64, Crash, &[u8]); 7] = [
        (u64::MAX, Crash::Old, b"axyd"),
        (u64::MAX, Crash::New, b"axypqr"),
        (u64::MAX, Crash::Torn(b'0'), b"axy000"),
        (1, Crash::Old, b"abcd"),
        (1, Crash::New, b"axyd"),
        (1, Crash::Torn(b'0'), b"a00d"),
        (0, Crash::Torn(b'0'), b"abcd"),
    ];
    for &(stop_after, how, left) in &rows {
        let disk = written(alloc, stop_after)?;
        let mut restarted = disk.crash(how)?;
        assert_eq!(&rt; restarted.bytes(), left);
        assert_eq!(&rt; restarted.faults(), 0);
        assert!(&rt; restarted.write_at(0, b"q").is_ok());
    }
    Ok(())
}

#[test]
fn a_disk_that_stops_fails_from_then_on(rt: HostRuntime) -> Result<(), Fail> {
    let alloc = rt.alloc();
    let mut disk = written(alloc, 2)?;
    assert_eq!(&rt; disk.bytes(), b"axyd".as_slice());
    assert!(&rt; disk.len().is_err());
    assert!(&rt; disk.sync().is_err());
    assert_eq!(&rt; disk.faults(), 3);
    let mut failing = MemDisk::new(
        alloc,
        bytes(alloc, b"abc")?,
        numbers(alloc, &[0])?,
        u64::MAX,
    );
    assert!(&rt; failing.write_at(0, b"q").is_err());
    assert!(&rt; failing.write_at(4, b"q").is_err());
    assert!(&rt; failing.write_at(3, b"q").is_ok());
    assert_eq!(&rt; failing.bytes(), b"abcq".as_slice());
    Ok(())
}

#[test]
fn a_scripted_authority_gives_its_replies_in_order(rt: HostRuntime) -> Result<(), Fail> {
    let alloc = rt.alloc();
    let mut authority = Scripted::new(
        alloc,
        replies(alloc, &[Some(b"first"), None, Some(b"third")])?,
    );
    assert_eq!(&rt; authority.stamp(NOW, b"a")?.as_slice(), b"first".as_slice());
    assert_eq!(&rt; authority.stamp(NOW, b"b").err(), Some(StampFault::Failed));
    assert_eq!(&rt; authority.stamp(NOW, b"c")?.as_slice(), b"third".as_slice());
    assert_eq!(&rt; authority.stamp(NOW, b"d").err(), Some(StampFault::Failed));
    let calls = authority.calls();
    assert_eq!(&rt; calls.len(), 4);
    assert_eq!(&rt; calls[2].request.as_slice(), b"c".as_slice());
    assert!(&rt; calls[1].reply.is_none());
    Ok(())
}

#[test]
fn a_bent_authority_turns_one_byte(rt: HostRuntime) -> Result<(), Fail> {
    let alloc = rt.alloc();
    let rows: [(BendAt, u32, &[u8], &[u8]); 4] = [
        (BendAt::Reply, 0, b"abc", b"reply\x78"),
        (BendAt::Reply, 6, b"abc", b"replyy"),
        (BendAt::Request, 2, b"\x60bc", b"replyy"),
        (BendAt::Request, 3, b"abc", b"replyy"),
    ];
    for &(at, from_end, asked, reply) in &rows {
        let inner = Scripted::new(alloc, replies(alloc, &[Some(b"replyy"), None])?);
        let mut bent = Bent::new(alloc, inner, at, from_end, 1);
        assert_eq!(&rt; bent.stamp(NOW, b"abc")?.as_slice(), reply);
        assert_eq!(&rt; bent.inner().calls()[0].request.as_slice(), asked);
        assert_eq!(&rt; bent.calls()[0].request.as_slice(), b"abc".as_slice());
        assert_eq!(&rt; bent.stamp(NOW, b"abc").err(), Some(StampFault::Failed));
        assert_eq!(&rt; bent.calls().len(), 2);
    }
    Ok(())
}
