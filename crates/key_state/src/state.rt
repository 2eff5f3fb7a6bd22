// A key state that was opened, and its states:
//
//     whole      after `open`; a `reserve` that answers Ok or Exhausted leaves it so
//     broken     after a `reserve` that answered DiskFault; each later one answers Broken
ghost use Rattle.std.specs.Prelude.{◌≡◌, [], ◌∷◌, ◌+◌, ◌≤◌, ◌<◌, ℕ, List, true, false, IsTrue, IfOk, IfErr, OnOk};
ghost use Rattle.ev_world.specs.Causes.{Rose, HasCause};
ghost use Rattle.ev_world.specs.Disk.{LeavesOnly, OnlyReads, IsOnDisk};
ghost use Rattle.key_state.specs.Keys.{Refuses};
ghost use Rattle.key_state.specs.View.{IsUsedTo, IsState, IsKeyStateOpened};
ghost use Rattle.key_state.specs.Reserving.{IsReserved, IsNotReserved};

use crate::StateFault;
use crate::opening::read_state;
use ev_world::{Disk, Failed, write_synced};
use std::alloc::Global;
use std::marker::Model;

/// An open key state, over a disk that nobody else writes.
#[derive(Drop)]
pub struct KeyState<B: Disk> {
    disk: B,
    leaves: u32,
    next: u32,
    broken: bool,
}

impl<B: Disk> Model for KeyState<B> {
    ghost use Rattle.std.specs.Prelude.{◌≤◌, IsTrue};
    ghost use Rattle.key_state.specs.View.{KeyStateView, IsState};

    ghost Value = { KeyStateView B };

    ghost view = { λ k. record { disk = k.disk; leaves = k.leaves; next = k.next; broken = k.broken } };

    ghost invariant = { λ k. (k.next ≤ k.leaves) × (k.leaves ≤ 1048576)
        × (IsTrue B.tells → IsState (B.reads k.disk) (B.images k.disk) k.leaves k.next k.broken) };
}

// Marks the next index of a state as used. Only what is on the disk is given: an index that a crash forgets would be given twice.
fn mark<B: Disk>(disk: &mut B, _leaves: u32, index: u32) -> Result<(), Failed>
    requires inside { index < _leaves }
    requires few { _leaves ≤ 1048576 }
    requires state { IsTrue B.tells → IsState (B.reads disk.old) (B.images disk.old) _leaves index false }
    ensures marked { OnOk result (IsTrue B.tells → IsState (B.reads disk.new) (B.images disk.new) _leaves (index + 1) false) }
    ensures on_disk { OnOk result (IsTrue B.tells → IsOnDisk B.reads B.images disk.old disk.new (index + 16) (255 ∷ [])) }
    ensures torn { IsTrue B.tells → IsState (B.reads disk.new) (B.images disk.new) _leaves index true }
    ensures any_moment { IsTrue B.tells → LeavesOnly B.clock B.since disk.old disk.new (IsUsedTo _leaves index) }
    ensures cause { HasCause (B.faults disk.old) (B.faults disk.new) result }
{
    write_synced(disk, u64::from(index) + 16, &[0xff])
}

impl<B: Disk> KeyState<B> {
    /// Opens the state of so many indexes that stands on a disk, and writes nothing. Where it can't, it hands the disk back with
    /// the first fault: of the header, then of the length.
    pub fn open(alloc: Global, disk: B, leaves: u32) -> Result<KeyState<B>, (B, StateFault)>
        requires some { 1 ≤ leaves }
        requires few { leaves ≤ 1048576 }

        ensures opened { IfOk result (λ k. IsKeyStateOpened B.tells B.reads B.images disk leaves k) }
        ensures only_reads { IfOk result (λ k. OnlyReads B.tells B.reads B.images B.clock B.since B.faults disk k.disk) }

        ensures fault { IfErr result (λ e. IsTrue B.tells → Refuses (B.reads disk) leaves e.1) }
        ensures failed { IfErr result (λ e. e.1 ≡ StateFault.DiskFault → Rose (B.faults disk) (B.faults e.0)) }
        ensures err_only_reads { IfErr result (λ e. OnlyReads B.tells B.reads B.images B.clock B.since B.faults disk e.0) }
    {
        let mut disk = disk;
        match read_state(alloc, &mut disk, leaves) {
            Ok(next) => Ok(KeyState {
                disk,
                leaves,
                next,
                broken: false,
            }),
            Err(fault) => Err((disk, fault)),
        }
    }

    /// Gives the next index: Ok only once it is marked as used on the disk. It takes no memory. It answers, in this order, Broken,
    /// Exhausted or DiskFault.
    pub fn reserve(&mut self) -> Result<u32, StateFault>
        ensures given { IfOk result (λ index. IsReserved B.tells B.reads B.images self.old index self.new) }
        // Broken and Exhausted come exactly where `reserve_fault` gives them, and change nothing; DiskFault leaves a broken state.
        ensures refused { IfErr result (λ e. IsNotReserved B.faults self.old e self.new) }
        // Every crash from now on leaves a state whose next index isn't lower than this one's.
        ensures marked { IsTrue B.tells → (c : List ℕ) → B.images self.new.disk c → IsUsedTo self.new.leaves self.new.next c }
        // No crash since it began leaves a lower one.
        ensures any_moment { IsTrue B.tells → LeavesOnly B.clock B.since self.old.disk self.new.disk (IsUsedTo self.old.leaves self.old.next) }
        ensures later { B.faults self.old.disk ≤ B.faults self.new.disk }
    {
        let index = self.next;
        if self.broken {
            return Err(StateFault::Broken(index));
        }
        if self.leaves <= index {
            return Err(StateFault::Exhausted);
        }
        let Ok(()) = mark(&mut self.disk, self.leaves, index) else {
            self.broken = true;
            return Err(StateFault::DiskFault);
        };
        self.next = index + 1;
        Ok(index)
    }

    /// Hands the disk back.
    pub fn close(self) -> B
        ensures { result ≡ self.disk }
    {
        self.disk
    }
}
