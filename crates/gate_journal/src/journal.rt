// A journal that was opened, and its states:
//
//     whole      after `open`; an `append` that answers Ok or Full leaves it so
//     broken     after an `append` that answered DiskFault; each later one answers Broken
//
// A broken journal has the frames of before, and they can be read. What the failed append left on the disk shows when
// the journal is opened again: that frame is there whole, or not at all.
ghost use Rattle.std.specs.Prelude.{◌≡◌, ◌⊎◌, ◌+◌, ◌^◌, ◌<◌, ◌≤◌, ℕ, List, [], ◌∷◌, ◌++◌, map, length, slice_get, slice_index, Some, take, drop, false, IsTrue, IfOk, IfErr, OnOk, OnErr};
ghost use Rattle.ev_world.specs.Causes.{Rose};
ghost use Rattle.ev_world.specs.Disk.{Only, OnlyReads, LeavesOnly};
ghost use Rattle.gate_journal.specs.Journal.{max_payload, Reads};
ghost use Rattle.gate_journal.specs.Damage.{ReadsOnly, IsDamage, IsOpenFault};
ghost use Rattle.gate_journal.specs.View.{IsKept};
ghost use Rattle.gate_journal.specs.Appending.{IsAdded, IsNotAdded};

use crate::JournalFault;
use crate::frame::{Frame, LIMIT, write_frame};
use crate::opening::read_journal;
use ev_world::{Disk, read};
use std::alloc::{AllocError, Global};
use std::marker::Model;

/// An open journal, over a disk that nobody else writes: a list of payloads, numbered from 0.
#[derive(Drop)]
pub struct Journal<D: Disk> {
    disk: D,
    frames: Vec<Frame>,
    // for how many further frames the list has room
    spare: usize,
    // the place of the closed gate
    end: u64,
    // room for the greatest frame
    buffer: Vec<u8>,
    // whether an append has failed
    broken: bool,
}

impl<D: Disk> Model for Journal<D> {
    ghost use Rattle.std.specs.Prelude.{map, ◌+◌, ◌≤◌, vec_len, vec_capacity};
    ghost use Rattle.gate_journal.specs.View.{View, payloads_of};
    ghost use Rattle.gate_journal.specs.Inside.{IsJournal};

    ghost Value = { View D };

    ghost view = { λ j. record {
      disk = j.disk;
      lengths = map (λ f. f.length) j.frames.items;
      payloads = payloads_of (map (λ f. f.length) j.frames.items) (D.reads j.disk);
      spare = j.spare;
      broken = j.broken;
    } };

    ghost invariant = { λ j. IsJournal D.tells (D.reads j.disk) (D.images j.disk) (map (λ f. f.place) j.frames.items)
        (map (λ f. f.length) j.frames.items) j.end (vec_capacity j.buffer) j.broken
        × (vec_len j.frames + j.spare ≤ vec_capacity j.frames) };
}

impl<D: Disk> Journal<D> {
    /// Opens the journal that stands on a disk, and writes nothing. Where it can't, it hands the disk
    /// back with the first fault: of the header, then of the frames in order.
    pub fn open(alloc: Global, disk: D) -> Result<Journal<D>, (D, JournalFault)>
        ensures read { IfOk result (λ j. IsTrue D.tells → ReadsOnly (D.reads disk) j.payloads) }
        ensures lengths { IfOk result (λ j. IsTrue D.tells → map length j.payloads ≡ j.lengths) }
        // Every crash from now on leaves these bytes.
        ensures durable { IfOk result (λ j. IsTrue D.tells → Only (D.reads disk) (D.images j.disk)) }
        ensures whole { IfOk result (λ j. j.broken ≡ false) }
        ensures only_reads { IfOk result (λ j. OnlyReads D.tells D.reads D.images D.clock D.since D.faults disk j.disk) }

        ensures answers { IfErr result (λ e. IsOpenFault e.1) }
        ensures damage { IfErr result (λ e. IsTrue D.tells → IsDamage (D.reads disk) e.1) }
        ensures failed { IfErr result (λ e. e.1 ≡ JournalFault.DiskFault → Rose (D.faults disk) (D.faults e.0)) }
        ensures err_only_reads { IfErr result (λ e. OnlyReads D.tells D.reads D.images D.clock D.since D.faults disk e.0) }
    {
        let mut disk = disk;
        match read_journal(alloc, &mut disk) {
            Ok((found, buffer)) => Ok(Journal {
                disk,
                frames: found.frames,
                spare: 0,
                end: found.end,
                buffer,
                broken: false,
            }),
            Err(fault) => Err((disk, fault)),
        }
    }

    /// What every open journal keeps: while no append has failed, every crash leaves its frames.
    pub fn every_crash_leaves_its_frames(&self)
        ensures { IsTrue D.tells → self.now.broken ≡ false → (c : List ℕ) → D.images self.now.disk c → Reads c self.now.payloads }
    {
        let _ = &self.disk;
    }

    /// How many frames there are.
    pub fn frames(&self) -> u64
        ensures count { result ≡ length self.now.lengths }
        ensures few { result < 2 ^ 32 }
    {
        self.frames.len() as u64
    }

    /// The length of a frame's payload.
    pub fn length(&self, entry: u64) -> u64
        requires { entry < length self.now.lengths }
        ensures get { slice_get self.now.lengths entry ≡ Some result }
        ensures index { slice_index self.now.lengths entry ≡ result }
    {
        self.frames[entry as usize].length
    }

    /// Reads a part of a frame's payload, from the byte numbered `from` on. It answers DiskFault alone.
    pub fn read_frame(&mut self, entry: u64, from: u64, out: &mut [u8]) -> Result<(), JournalFault>
        requires entry { entry < length self.old.lengths }
        requires within { from + length out.old ≤ slice_index self.old.lengths entry }
        ensures bytes { OnOk result (IsTrue D.tells → (p : List ℕ) → slice_get self.old.payloads entry ≡ Some p → out.new ≡ take (length out.old) (drop from p)) }
        ensures kept { IsKept D.tells D.reads D.images D.clock D.since D.faults self.old self.new }
        ensures answers { IfErr result (λ e. e ≡ JournalFault.DiskFault) }
        ensures failed { OnErr result (Rose (D.faults self.old.disk) (D.faults self.new.disk)) }
    {
        let place = self.frames[entry as usize].place;
        let Ok(()) = read(&mut self.disk, place + 5 + from, out) else {
            return Err(JournalFault::DiskFault);
        };
        Ok(())
    }

    /// Makes room for the place of one frame more.
    pub fn reserve(&mut self) -> Result<(), AllocError>
        ensures spare { OnOk result (1 ≤ self.new.spare) }
        ensures no_less { self.old.spare ≤ self.new.spare }
        ensures disk { self.new.disk ≡ self.old.disk }
        ensures lengths { self.new.lengths ≡ self.old.lengths }
        ensures payloads { self.new.payloads ≡ self.old.payloads }
        ensures broken { self.new.broken ≡ self.old.broken }
        ensures refused { OnErr result (self.new ≡ self.old) }
    {
        if self.spare == 0 {
            self.frames.reserve(1)?;
            self.spare = 1;
        }
        Ok(())
    }

    /// Adds a frame, and gives its number: Ok only once it is on the disk. It takes no memory. It
    /// answers, in this order, Broken, Full or DiskFault.
    pub fn append(&mut self, payload: &[u8]) -> Result<u64, JournalFault>
        requires size { length payload.now ≤ max_payload }
        requires spare { 1 ≤ self.old.spare }

        ensures added { IfOk result (λ number. IsAdded D.tells D.reads D.images self.old payload.now number self.new) }
        // Broken and Full come exactly where `append_fault` gives them, and change nothing; DiskFault leaves a broken journal.
        ensures refused { IfErr result (λ e. IsNotAdded D.tells D.reads D.faults self.old payload.now e self.new) }
        // A crash at any moment of the call, or after it, leaves the frames of before, or those and the new one.
        ensures any_moment { IsTrue D.tells → self.old.broken ≡ false → LeavesOnly D.clock D.since self.old.disk self.new.disk
            (λ c. Reads c self.old.payloads ⊎ Reads c (self.old.payloads ++ payload.now ∷ [])) }
        ensures left { IsTrue D.tells → self.old.broken ≡ false → (c : List ℕ) → D.images self.new.disk c
            → Reads c self.old.payloads ⊎ Reads c (self.old.payloads ++ payload.now ∷ []) }
        ensures later { D.faults self.old.disk ≤ D.faults self.new.disk }
    {
        let number = self.frames.len() as u64;
        if self.broken {
            return Err(JournalFault::Broken(number));
        }
        let place = self.end;
        let length = payload.len() as u64;
        let next = place + length + 37;
        if next + 1 > LIMIT {
            return Err(JournalFault::Full(next + 1));
        }
        let Ok(()) = write_frame(&mut self.disk, &mut self.buffer, place, payload) else {
            self.broken = true;
            return Err(JournalFault::DiskFault);
        };
        let Ok(()) = self.frames.push(Frame { place, length }) else {
            unreachable!()
        };
        self.spare -= 1;
        self.end = next;
        Ok(number)
    }

    /// Hands the disk back.
    pub fn close(self) -> D
        ensures { result ≡ self.disk }
    {
        self.disk
    }
}
