ghost use Rattle.std.specs.Prelude.{◌+◌, ◌≤◌, IfOk, IfErr};
ghost use Rattle.ev_world.specs.Disk.{OnlyReads};
ghost use Rattle.archive_store.specs.Told.{most_reads};
ghost use Rattle.archive_store.specs.Answers.{IsFetched, IsUnfetched};
ghost use Rattle.archive_store.specs.InsideStore.{since, IsMark};

use crate::fault::Outside;
use crate::reading::read_group;
use crate::{Store, StoreFault};
use ev_world::Disk;
use object_groups::Group;

/// The most reads that failed between two entries and are told.
const MOST_READS: u32 = 4_294_967_294;

impl<D: Disk> Store<D> {
    /// The documents of a group, read back from the disk. It answers Unknown, DiskFault or Memory, and works while the store is closed for
    /// steps.
    pub fn fetch(&mut self, id: u32) -> Result<Group, StoreFault>
        ensures fetched { IfOk result (λ group. IsFetched D.tells self.old id group self.new) }
        ensures unfetched { IfErr result (λ e. IsUnfetched D.faults self.old id e self.new) }
        ensures only_reads { OnlyReads D.tells D.reads D.images D.clock D.since D.faults self.old.disk self.new.disk }
    {
        let groups = self.archive.groups();
        if id >= groups {
            return Err(StoreFault::Unknown { id, groups });
        }
        match read_group(self.alloc, &mut self.journal, &self.catalogue, id) {
            Ok(group) => Ok(group),
            Err(Outside::DiskFault) => {
                mark(&mut self.here, &mut self.failed);
                Err(StoreFault::DiskFault)
            }
            Err(Outside::Memory) => Err(StoreFault::Memory),
        }
    }
}

// Tells a read that failed, unless the most are told.
fn mark(here: &mut u32, failed: &mut Option<u32>)
    requires { here.old + since failed.old ≤ most_reads }
    ensures mark { IsMark here.old failed.old here.new failed.new }
    ensures cap { here.new + since failed.new ≤ most_reads }
{
    match *failed {
        None => {
            if *here < MOST_READS {
                *here += 1;
            }
        }
        Some(later) => {
            if *here + later < MOST_READS {
                *failed = Some(later + 1);
            }
        }
    }
}
