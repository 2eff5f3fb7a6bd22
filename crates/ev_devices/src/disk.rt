ghost use Rattle.std.specs.Prelude.{◌≡◌, ◌↔◌, ◌⊎◌, ◌+◌, ◌≤◌, ◌<◌, ℕ, List, [], true, ◌∷◌, ◌++◌, ◌^◌, None, length, take, drop, IsErr, IfOk, OnOk, OnErr};
ghost use Rattle.ev_world.specs.Causes.{Rose, HasCause};
ghost use Rattle.ev_world.specs.Disk.{Holds, Torn, Follows, Only, Elapses};
ghost use Rattle.ev_devices.specs.Devices.{counted};
ghost use Rattle.ev_devices.specs.Disk.{Fails, writes_of, reads_of, images_of, since_of, disk_failed, disk_asked, disk_written, disk_synced, restarted};
ghost use Rattle.ev_devices.specs.Inside.{IsMade, WritesNothing};
ghost use Rattle.ev_devices.specs.Writes.{sync_last, left_by};

use crate::calls::Calls;
use crate::content::Content;
use crate::crash::{Crash, left_after};
use crate::written::{Written, sync_now};
use der_values::{Bytes, Items};
use ev_world::{Disk, Failed};
use std::alloc::{AllocError, Global};
use std::marker::Model;

/// A disk in memory. It keeps all that it was asked to write, so it can say for each moment what a crash might have left.
/// A call that fails changes nothing but the counts.
#[derive(Drop)]
pub struct MemDisk {
    alloc: Global,
    content: Content,
    writes: Vec<Written>,
    stop_after: u64,
    calls: Calls,
}

impl Model for MemDisk {
    ghost use Rattle.ev_devices.specs.Disk.{DiskDevice};
    ghost use Rattle.ev_devices.specs.Inside.{IsDisk};

    ghost Value = { DiskDevice };

    ghost view = { λ d. record {
      first = d.content.first;
      writes = d.writes.items;
      failing = d.calls.failing;
      stop_after = d.stop_after;
      calls = d.calls.number;
      faults = d.calls.faults;
    } };

    ghost invariant = { λ d. IsDisk d.content d.writes.items d.calls.number };
}

impl MemDisk {
    /// A disk with these bytes, all of them on it. The calls of these numbers fail, and each call from `stop_after` on.
    pub fn new(alloc: Global, bytes: Bytes, failing: Items<u64>, stop_after: u64) -> MemDisk
        ensures { result ≡ record { first = bytes; writes = []; failing = failing; stop_after = stop_after; calls = 0; faults = 0 } }
    {
        MemDisk {
            alloc,
            content: Content::new(alloc, bytes.into_vec()),
            writes: Vec::new(alloc),
            stop_after,
            calls: Calls::new(failing),
        }
    }

    /// The bytes that a read gives.
    pub fn bytes(&self) -> &[u8]
        ensures { result.now ≡ reads_of self.now }
    {
        self.content.bytes()
    }

    /// The disk of a restart after a crash now. No call of it fails.
    pub fn crash(self, how: Crash) -> Result<MemDisk, AllocError>
        ensures bytes { IfOk result (λ d. d ≡ restarted (left_by how self.first self.writes)) }
        ensures image { IfOk result (λ d. images_of self (reads_of d)) }
    {
        let MemDisk {
            alloc,
            content,
            writes,
            ..
        } = self;
        let bytes = left_after(alloc, how, content.into_first(), &writes)?;
        let never = Items::from_vec(Vec::new(alloc));
        Ok(MemDisk::new(alloc, Bytes::from_vec(bytes), never, u64::MAX))
    }

    // Begins a call that needs so many bytes to be there.
    #[tactic(auto, using(crate::proofs::DiskCalls::counted_disk))]
    fn begin(&mut self, needed: u64) -> Result<(), Failed>
        ensures fails { IsErr result ↔ (Fails self.old ⊎ (length (reads_of self.old) < needed)) }
        ensures cause { HasCause self.old.faults self.new.faults result }
        ensures ok { OnOk result (self.new ≡ disk_asked self.old) }
        ensures err { OnErr result (self.new ≡ disk_failed self.old) }
        ensures made { IsMade self.old }
        ensures counting { OnOk result (self.old.calls + 1 < 2 ^ 64) }
    {
        let size = self.bytes().len() as u64;
        if self.stop_after <= self.calls.number || size < needed {
            return Err(self.calls.stop());
        }
        self.calls.begin()
    }

    // Begins a call that needs so many bytes to be there. It writes nothing.
    fn ask(&mut self, needed: u64) -> Result<(), Failed>
        ensures fails { IsErr result ↔ (Fails self.old ⊎ (length (reads_of self.old) < needed)) }
        ensures cause { HasCause self.old.faults self.new.faults result }
        ensures ok { OnOk result (self.new ≡ disk_asked self.old) }
        ensures err { OnErr result (self.new ≡ disk_failed self.old) }
        ensures made { IsMade self.old }
        ensures counting { OnOk result (self.old.calls + 1 < 2 ^ 64) }
        ensures nothing { WritesNothing self.old self.new }
    {
        match self.begin(needed) {
            Ok(()) => Ok(()),
            Err(failed) => Err(failed),
        }
    }

    // A call that has begun finds no memory.
    fn give_up(&mut self) -> Failed
        ensures later { self.old.faults ≤ self.new.faults }
        ensures rose { Rose self.old.faults self.new.faults }
        ensures counts { self.new ≡ record self.old { faults = counted self.old.faults } }
    {
        self.calls.fail()
    }

    // Keeps the write, and makes it; an Err changes nothing. It stands in a call that has begun.
    fn keep(&mut self, place: u64, bytes: &[u8]) -> Result<(), AllocError>
        ensures ok { OnOk result (self.new ≡ record self.old {
          writes = self.old.writes ++ record { place = place; bytes = bytes.now; moment = self.old.calls; synced = None } ∷ [];
        }) }
        ensures err { OnErr result (self.new ≡ self.old) }
    {
        let kept = Bytes::from_vec(Vec::from_slice(self.alloc, bytes)?);
        self.writes.reserve(1)?;
        self.content.write(self.alloc, place, bytes)?;
        let written = Written {
            place,
            bytes: kept,
            moment: self.calls.number,
            synced: None,
        };
        let Ok(()) = self.writes.push(written) else {
            unreachable!()
        };
        Ok(())
    }

    // Marks the last write as synced by now. It stands in a call that has begun.
    fn settle(&mut self)
        ensures { self.new ≡ record self.old { writes = sync_last self.old.calls self.old.writes } }
    {
        sync_now(&mut self.writes, self.calls.number);
    }
}

impl Disk for MemDisk {
    ghost use Rattle.ev_devices.specs.Disk.{writes_of, reads_of, images_of, since_of};
    ghost use Rattle.ev_devices.specs.WriteLaws.{images_read, at_now, only_at};

    ghost tells = { true };

    ghost reads = { reads_of };

    ghost faults = { λ d. d.faults };

    ghost images = { images_of };

    ghost clock = { λ d. d.calls };

    ghost since = { since_of };

    ghost reads_now = { λ d tells. images_read d.first (writes_of d) };

    ghost counts_now = { λ d t c tells le now. at_now d.first d.writes d.calls t c le now };

    ghost only_now = { λ d c tells left. only_at d.first d.writes d.calls c left };

    fn len(&mut self) -> Result<u64, Failed>
        ensures bytes { IfOk result (λ n. n ≡ length (reads_of self.old)) }
        ensures same { reads_of self.new ≡ reads_of self.old }
        ensures crash { (c : List ℕ) → images_of self.new c → images_of self.old c }
        ensures time { Elapses self.old.calls self.new.calls (since_of self.old) (since_of self.new) (images_of self.new) }
        ensures cause { HasCause self.old.faults self.new.faults result }
        ensures fails { IsErr result ↔ Fails self.old }
        ensures ok { OnOk result (self.new ≡ disk_asked self.old) }
        ensures err { OnErr result (self.new ≡ disk_failed self.old) }
    {
        self.ask(0)?;
        Ok(self.bytes().len() as u64)
    }

    /// Fails past the end too.
    fn read_at(&mut self, place: u64, out: &mut [u8]) -> Result<(), Failed>
        ensures bytes { OnOk result (out.new ≡ take (length out.old) (drop place (reads_of self.old))) }
        ensures same { reads_of self.new ≡ reads_of self.old }
        ensures crash { (c : List ℕ) → images_of self.new c → images_of self.old c }
        ensures time { Elapses self.old.calls self.new.calls (since_of self.old) (since_of self.new) (images_of self.new) }
        ensures cause { HasCause self.old.faults self.new.faults result }
        ensures fails { IsErr result ↔ (Fails self.old ⊎ (length (reads_of self.old) < place + length out.old)) }
        ensures ok { OnOk result (self.new ≡ disk_asked self.old) }
        ensures err { OnErr result (self.new ≡ disk_failed self.old) }
        ensures kept { OnErr result (out.new ≡ out.old) }
    {
        let end = place.saturating_add(out.len() as u64);
        self.ask(end)?;
        out.copy_from_slice(&self.bytes()[place as usize..end as usize]);
        Ok(())
    }

    /// Fails where it begins past the end too.
    fn write_at(&mut self, place: u64, bytes: &[u8]) -> Result<(), Failed>
        ensures written { OnOk result (Holds (reads_of self.old) place bytes.now (reads_of self.new)) }
        ensures torn { Torn place (length bytes.now) (reads_of self.old) (reads_of self.new) }
        ensures crash { Follows (Torn place (length bytes.now)) (images_of self.old) (images_of self.new) }
        ensures time { Elapses self.old.calls self.new.calls (since_of self.old) (since_of self.new) (images_of self.new) }
        ensures cause { HasCause self.old.faults self.new.faults result }
        ensures fails { Fails self.old ⊎ (length (reads_of self.old) < place) → IsErr result }
        ensures ok { OnOk result (self.new ≡ disk_written self.old place bytes.now) }
        ensures err { OnErr result (self.new ≡ disk_failed self.old) }
    {
        self.ask(place)?;
        match self.keep(place, bytes) {
            Ok(()) => Ok(()),
            Err(_) => Err(self.give_up()),
        }
    }

    fn sync(&mut self) -> Result<(), Failed>
        ensures same { reads_of self.new ≡ reads_of self.old }
        ensures durable { OnOk result (Only (reads_of self.old) (images_of self.new)) }
        ensures crash { (c : List ℕ) → images_of self.new c → images_of self.old c }
        ensures time { Elapses self.old.calls self.new.calls (since_of self.old) (since_of self.new) (images_of self.new) }
        ensures cause { HasCause self.old.faults self.new.faults result }
        ensures fails { IsErr result ↔ Fails self.old }
        ensures ok { OnOk result (self.new ≡ disk_synced self.old) }
        ensures err { OnErr result (self.new ≡ disk_failed self.old) }
    {
        self.ask(0)?;
        self.settle();
        Ok(())
    }

    fn faults(&self) -> u64
        ensures { result ≡ self.now.faults }
    {
        self.calls.faults
    }
}
