// Room for entries, so that to add one takes no memory.
ghost use Rattle.std.specs.Prelude.{◌≡◌, ◌<◌, ◌≤◌, OnOk};
ghost use Rattle.archive_chain.specs.Held.{IsAsBefore};
ghost use Rattle.archive_chain.specs.InsideReady.{HasRoomFor, KeepsTable};

use crate::archive::Archive;
use std::alloc::AllocError;

impl Archive {
    // Makes room for one entry more and for so many groups that it seals.
    pub(crate) fn make_room(&mut self, groups: u32) -> Result<(), AllocError>
        ensures room { OnOk result (HasRoomFor self.new groups) }
        ensures same { KeepsTable self.old self.new }
    {
        self.make_stamp_room()?;
        self.make_group_room(groups as usize)
    }

    // Room for one time-stamp, one row and one cohort more.
    fn make_stamp_room(&mut self) -> Result<(), AllocError>
        ensures room { OnOk result (0 < self.new.room.stamps) }
        ensures groups { self.new.room.groups ≡ self.old.room.groups }
        ensures same { KeepsTable self.old self.new }
    {
        if self.spare_stamps > 0 {
            return Ok(());
        }
        self.stamps.reserve(1)?;
        self.rows.reserve(1)?;
        self.names.reserve(1)?;
        self.live.reserve(1)?;
        self.spare_stamps = 1;
        Ok(())
    }

    fn make_group_room(&mut self, groups: usize) -> Result<(), AllocError>
        ensures room { OnOk result (groups ≤ self.new.room.groups) }
        ensures stamps { self.new.room.stamps ≡ self.old.room.stamps }
        ensures same { KeepsTable self.old self.new }
    {
        if self.spare_groups >= groups {
            return Ok(());
        }
        self.firsts.reserve(groups)?;
        self.spare_groups = groups;
        Ok(())
    }
}
