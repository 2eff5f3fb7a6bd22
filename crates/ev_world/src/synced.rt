// A write that is on the disk before the next.
ghost use Rattle.std.specs.Prelude.{◌≤◌, IsTrue, length, OnOk};
ghost use Rattle.ev_world.specs.Causes.{HasCause};
ghost use Rattle.ev_world.specs.Disk.{IsOnDisk, WritesOnly};

use crate::{Disk, Failed};

/// Writes, and syncs. Until it has answered, a crash leaves any bytes in the range. Where it fails, the range may have changed.
pub fn write_synced<D: Disk>(disk: &mut D, place: u64, bytes: &[u8]) -> Result<(), Failed>
    requires { IsTrue D.tells → place ≤ length (D.reads disk.old) }
    ensures on_disk { OnOk result (IsTrue D.tells → IsOnDisk D.reads D.images disk.old disk.new place bytes.now) }
    ensures within { IsTrue D.tells → WritesOnly D.reads D.images D.clock D.since disk.old disk.new place (length bytes.now) }
    ensures cause { HasCause (D.faults disk.old) (D.faults disk.new) result }
{
    disk.write_at(place, bytes)?;
    disk.sync()?;
    Ok(())
}
