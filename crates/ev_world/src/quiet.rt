// Calls that write nothing, each with what it leaves in one clause.
ghost use Rattle.std.specs.Prelude.{◌≡◌, ◌+◌, ◌≤◌, IsTrue, length, take, drop, IfOk, OnOk};
ghost use Rattle.ev_world.specs.Causes.{HasCause};
ghost use Rattle.ev_world.specs.Disk.{Only, IsQuiet};

use crate::{Disk, Failed};

/// How many bytes there are.
pub fn size_of<D: Disk>(disk: &mut D) -> Result<u64, Failed>
    ensures bytes { IfOk result (λ n. IsTrue D.tells → n ≡ length (D.reads disk.old)) }
    ensures quiet { IsTrue D.tells → IsQuiet D.reads D.images D.clock D.since disk.old disk.new }
    ensures cause { HasCause (D.faults disk.old) (D.faults disk.new) result }
{
    disk.len()
}

/// Fills `out` with the bytes from a place on.
pub fn read<D: Disk>(disk: &mut D, place: u64, out: &mut [u8]) -> Result<(), Failed>
    requires { IsTrue D.tells → place + length out.old ≤ length (D.reads disk.old) }
    ensures bytes { OnOk result (IsTrue D.tells → out.new ≡ take (length out.old) (drop place (D.reads disk.old))) }
    ensures quiet { IsTrue D.tells → IsQuiet D.reads D.images D.clock D.since disk.old disk.new }
    ensures cause { HasCause (D.faults disk.old) (D.faults disk.new) result }
{
    disk.read_at(place, out)
}

/// Waits until all that was written is on the disk: then a crash leaves what a read gives.
pub fn settle<D: Disk>(disk: &mut D) -> Result<(), Failed>
    ensures durable { OnOk result (IsTrue D.tells → Only (D.reads disk.old) (D.images disk.new)) }
    ensures quiet { IsTrue D.tells → IsQuiet D.reads D.images D.clock D.since disk.old disk.new }
    ensures cause { HasCause (D.faults disk.old) (D.faults disk.new) result }
{
    disk.sync()
}
