// The key state of an authority.
ghost use Rattle.std.specs.Prelude.{◌≡◌, ◌≤◌, ◌+◌, false, IsTrue, IfOk, IfErr, length};
ghost use Rattle.ev_world.specs.Causes.{Rose};
ghost use Rattle.ev_world.specs.Disk.{IsQuiet};
ghost use Rattle.key_state.specs.Keys.{next_index, IsKeyStateFormatted};
ghost use Rattle.key_state.specs.View.{IsState};
ghost use Rattle.trial_authority.specs.Key.{leaves};
ghost use Rattle.trial_authority.specs.Stamping.{IsMisfit};
ghost use Rattle.trial_authority.specs.Inside.{Says, SaysLong};
ghost use Rattle.trial_authority.specs.Stamping.{disk_of};

use ev_world::Disk;
use key_state::{KeyState, StateFault, create};
use std::alloc::Global;

/// The number of indexes of the key.
const LEAVES: u32 = 1024;

/// The indexes of a key: the disk, where their state isn't open yet, or the open state.
#[derive(Drop)]
pub(crate) enum Indexes<B: Disk> {
    Unopened(B),
    Open(KeyState<B>),
}

/// Opens the state on a disk, or makes one where there is no header and opens it.
pub(crate) fn opened<B: Disk>(alloc: Global, disk: B) -> Result<KeyState<B>, (B, StateFault)>
    ensures leaves { IfOk result (λ k. k.leaves ≡ leaves) }
    ensures whole { IfOk result (λ k. k.broken ≡ false) }
    ensures state { IfOk result (λ k. IsTrue B.tells → IsState (B.reads k.disk) (B.images k.disk) leaves k.next false) }
    ensures on_disk { IfOk result (λ k. IsTrue B.tells → IsKeyStateFormatted (B.reads disk) → k.next ≡ next_index (B.reads disk)) }
    ensures made { IfOk result (λ k. IsTrue B.tells → ¬ IsKeyStateFormatted (B.reads disk) → k.next ≡ 0) }
    ensures fits { IfOk result (λ k. IsTrue B.tells → ¬ IsMisfit (B.reads disk)) }
    ensures quiet { IfOk result (λ k. IsTrue B.tells → IsKeyStateFormatted (B.reads disk) → IsQuiet B.reads B.images B.clock B.since disk k.disk) }
    ensures ok_later { IfOk result (λ k. B.faults disk ≤ B.faults k.disk) }

    ensures fault { IfErr result (λ e. IsTrue B.tells → Says (B.reads disk) e.1) }
    ensures err_quiet { IfErr result (λ e. IsTrue B.tells → IsKeyStateFormatted (B.reads disk) → IsQuiet B.reads B.images B.clock B.since disk e.0) }
    ensures failed { IfErr result (λ e. e.1 ≡ StateFault.DiskFault → Rose (B.faults disk) (B.faults e.0)) }
    ensures err_later { IfErr result (λ e. B.faults disk ≤ B.faults e.0) }
{
    match KeyState::open(alloc, disk, LEAVES) {
        Ok(state) => Ok(state),
        Err((disk, StateFault::NotFormatted)) => made(alloc, disk),
        Err((disk, fault)) => Err((disk, fault)),
    }
}

// Makes a state of which no index is used, and opens it.
fn made<B: Disk>(alloc: Global, disk: B) -> Result<KeyState<B>, (B, StateFault)>
    requires { IsTrue B.tells → ¬ IsKeyStateFormatted (B.reads disk) }
    ensures leaves { IfOk result (λ k. k.leaves ≡ leaves) }
    ensures whole { IfOk result (λ k. k.broken ≡ false) }
    ensures state { IfOk result (λ k. IsTrue B.tells → IsState (B.reads k.disk) (B.images k.disk) leaves k.next false) }
    ensures unused { IfOk result (λ k. IsTrue B.tells → k.next ≡ 0) }
    ensures fits { IfOk result (λ k. IsTrue B.tells → length (B.reads disk) ≤ 16 + leaves) }
    ensures ok_later { IfOk result (λ k. B.faults disk ≤ B.faults k.disk) }

    ensures fault { IfErr result (λ e. IsTrue B.tells → SaysLong (B.reads disk) e.1) }
    ensures failed { IfErr result (λ e. e.1 ≡ StateFault.DiskFault → Rose (B.faults disk) (B.faults e.0)) }
    ensures err_later { IfErr result (λ e. B.faults disk ≤ B.faults e.0) }
{
    let (disk, answer) = create(alloc, disk, LEAVES);
    match answer {
        Ok(()) => KeyState::open(alloc, disk, LEAVES),
        Err(fault) => Err((disk, fault)),
    }
}

impl<B: Disk> Indexes<B> {
    /// Hands the disk back.
    pub(crate) fn into_disk(self) -> B
        ensures { result ≡ disk_of self }
    {
        match self {
            Indexes::Unopened(disk) => disk,
            Indexes::Open(state) => state.close(),
        }
    }
}
