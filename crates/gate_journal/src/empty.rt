// An empty journal.
ghost use Rattle.std.specs.Prelude.{◌≡◌, ◌≤◌, ◌↔◌, [], ◌∷◌, ◌++◌, ℕ, List, drop, IsTrue, IsErrOf, IfOk, IfErr, OnOk};
ghost use Rattle.ev_world.specs.Causes.{Rose, HasCause};
ghost use Rattle.ev_world.specs.Disk.{Torn, After, Only, IsQuiet, LeavesOnly, IsOnDisk, WritesOnly};
ghost use Rattle.gate_journal.specs.Journal.{header, Reads, IsOccupied};
ghost use Rattle.gate_journal.specs.Damage.{IsCreateFault};
ghost use Rattle.gate_journal.specs.Inside.{IsClosed};

use crate::JournalFault;
use crate::frame::HEADER;
use ev_world::{Disk, Failed, read, size_of, write_synced};

const OCCUPIED: [u8; 17] = *b"EVIDENCE-ARCH-1\n\x01";

/// Makes an empty journal over the first 17 bytes, unless a journal with an entry is there, which is
/// left as it is. What stands behind these bytes stays.
pub fn create<D: Disk>(disk: D) -> (D, Result<(), JournalFault>)
    ensures reads { OnOk result.1 (IsTrue D.tells → Reads (D.reads result.0) []) }
    ensures made { OnOk result.1 (IsTrue D.tells → D.reads result.0 ≡ header ++ 0 ∷ drop 17 (D.reads disk)) }
    ensures behind { IsTrue D.tells → drop 17 (D.reads result.0) ≡ drop 17 (D.reads disk) }
    // Every crash from now on leaves these bytes.
    ensures durable { OnOk result.1 (IsTrue D.tells → Only (D.reads result.0) (D.images result.0)) }
    // A crash at any moment of the call leaves what stands behind the first 17 bytes.
    ensures any_moment { IsTrue D.tells → LeavesOnly D.clock D.since disk result.0 (After (Torn 0 17) (D.images disk)) }

    ensures free { OnOk result.1 (IsTrue D.tells → ¬ IsOccupied (D.reads disk)) }
    ensures occupied { IsErrOf result.1 JournalFault.Occupied → IsTrue D.tells → IsOccupied (D.reads disk) }
    // It writes nothing then, whatever it answers.
    ensures kept { IsTrue D.tells → IsOccupied (D.reads disk) → IsQuiet D.reads D.images D.clock D.since disk result.0 }

    ensures answers { IfErr result.1 IsCreateFault }
    ensures failed { IsErrOf result.1 JournalFault.DiskFault → Rose (D.faults disk) (D.faults result.0) }
    ensures later { D.faults disk ≤ D.faults result.0 }
{
    let mut disk = disk;
    let answer = create_on(&mut disk);
    (disk, answer)
}

fn create_on<D: Disk>(disk: &mut D) -> Result<(), JournalFault>
    ensures made { OnOk result (IsTrue D.tells → D.reads disk.new ≡ header ++ 0 ∷ drop 17 (D.reads disk.old)) }
    ensures behind { IsTrue D.tells → drop 17 (D.reads disk.new) ≡ drop 17 (D.reads disk.old) }
    ensures durable { OnOk result (IsTrue D.tells → Only (D.reads disk.new) (D.images disk.new)) }
    ensures any_moment { IsTrue D.tells → LeavesOnly D.clock D.since disk.old disk.new (After (Torn 0 17) (D.images disk.old)) }
    ensures free { OnOk result (IsTrue D.tells → ¬ IsOccupied (D.reads disk.old)) }
    ensures occupied { IsErrOf result JournalFault.Occupied → IsTrue D.tells → IsOccupied (D.reads disk.old) }
    ensures kept { IsTrue D.tells → IsOccupied (D.reads disk.old) → IsQuiet D.reads D.images D.clock D.since disk.old disk.new }
    ensures answers { IfErr result IsCreateFault }
    ensures failed { IsErrOf result JournalFault.DiskFault → Rose (D.faults disk.old) (D.faults disk.new) }
    ensures later { D.faults disk.old ≤ D.faults disk.new }
{
    if is_occupied(disk)? {
        return Err(JournalFault::Occupied);
    }
    write_empty(disk)?;
    Ok(())
}

fn is_occupied<D: Disk>(disk: &mut D) -> Result<bool, Failed>
    ensures is { IfOk result (λ b. IsTrue D.tells → (IsTrue b ↔ IsOccupied (D.reads disk.old))) }
    ensures quiet { IsTrue D.tells → IsQuiet D.reads D.images D.clock D.since disk.old disk.new }
    ensures cause { HasCause (D.faults disk.old) (D.faults disk.new) result }
{
    if size_of(disk)? < 17 {
        return Ok(false);
    }
    let mut start = [0; 17];
    read(disk, 0, &mut start)?;
    Ok(start == OCCUPIED)
}

fn write_empty<D: Disk>(disk: &mut D) -> Result<(), Failed>
    ensures made { OnOk result (IsTrue D.tells → D.reads disk.new ≡ header ++ 0 ∷ drop 17 (D.reads disk.old)) }
    ensures behind { IsTrue D.tells → drop 17 (D.reads disk.new) ≡ drop 17 (D.reads disk.old) }
    ensures durable { OnOk result (IsTrue D.tells → Only (D.reads disk.new) (D.images disk.new)) }
    ensures any_moment { IsTrue D.tells → LeavesOnly D.clock D.since disk.old disk.new (After (Torn 0 17) (D.images disk.old)) }
    ensures cause { HasCause (D.faults disk.old) (D.faults disk.new) result }
{
    // The closed gate has to be on the disk before the header: behind a header whatever gate is there counts.
    write_synced(disk, 0, &[0; 17])?;
    write_header(disk)?;
    Ok(())
}

// Writes the header over a closed gate: no crash leaves it over an open one.
fn write_header<D: Disk>(disk: &mut D) -> Result<(), Failed>
    requires { IsTrue D.tells → (c : List ℕ) → D.images disk.old c → IsClosed (drop 16 c) }
    ensures on_disk { OnOk result (IsTrue D.tells → IsOnDisk D.reads D.images disk.old disk.new 0 header) }
    ensures within { IsTrue D.tells → WritesOnly D.reads D.images D.clock D.since disk.old disk.new 0 16 }
    ensures still_closed { IsTrue D.tells → LeavesOnly D.clock D.since disk.old disk.new (λ c. IsClosed (drop 16 c)) }
    ensures cause { HasCause (D.faults disk.old) (D.faults disk.new) result }
{
    write_synced(disk, 0, &HEADER)
}
