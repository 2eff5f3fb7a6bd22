ghost use Rattle.std.specs.Prelude.{◌≡◌, ◌≤◌, ℕ, List, [], ◌∷◌, ◌++◌, drop, IsTrue, IsErrOf, IfErr, OnOk};
ghost use Rattle.ev_world.specs.Causes.{Rose};
ghost use Rattle.ev_world.specs.Disk.{Torn, After, IsQuiet, LeavesOnly};
ghost use Rattle.gate_journal.specs.Journal.{header, IsOccupied};
ghost use Rattle.archive_store.specs.Images.{ReadsHistory};
ghost use Rattle.archive_store.specs.Opening.{IsCreateFault};

use crate::StoreFault;
use ev_world::Disk;
use gate_journal::JournalFault;

/// Makes an empty store over the first 17 bytes, unless a journal with an entry is there, which is left as it is. What stands behind
/// these bytes stays. It answers Occupied or DiskFault.
pub fn create<D: Disk>(disk: D) -> (D, Result<(), StoreFault>)
    ensures reads { OnOk result.1 (IsTrue D.tells → ReadsHistory (D.reads result.0) []) }
    // Every crash from now on leaves the empty history.
    ensures durable { OnOk result.1 (IsTrue D.tells → (c : List ℕ) → D.images result.0 c → ReadsHistory c []) }
    ensures made { OnOk result.1 (IsTrue D.tells → D.reads result.0 ≡ header ++ 0 ∷ drop 17 (D.reads disk)) }
    ensures behind { IsTrue D.tells → drop 17 (D.reads result.0) ≡ drop 17 (D.reads disk) }
    // A crash at any moment of the call leaves what stands behind the first 17 bytes.
    ensures any_moment { IsTrue D.tells → LeavesOnly D.clock D.since disk result.0 (After (Torn 0 17) (D.images disk)) }

    ensures free { OnOk result.1 (IsTrue D.tells → ¬ IsOccupied (D.reads disk)) }
    ensures occupied { IsErrOf result.1 StoreFault.Occupied → IsTrue D.tells → IsOccupied (D.reads disk) }
    // It writes nothing then, whatever it answers.
    ensures kept { IsTrue D.tells → IsOccupied (D.reads disk) → IsQuiet D.reads D.images D.clock D.since disk result.0 }

    ensures answers { IfErr result.1 IsCreateFault }
    ensures failed { IsErrOf result.1 StoreFault.DiskFault → Rose (D.faults disk) (D.faults result.0) }
    ensures later { D.faults disk ≤ D.faults result.0 }
{
    match gate_journal::create(disk) {
        (disk, Ok(())) => (disk, Ok(())),
        (disk, Err(JournalFault::Occupied)) => (disk, Err(StoreFault::Occupied)),
        (disk, Err(JournalFault::DiskFault)) => (disk, Err(StoreFault::DiskFault)),
        (_, Err(_)) => unreachable!(),
    }
}
