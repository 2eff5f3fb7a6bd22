// A real file as a disk: an edge that is trusted. It counts its faults, and tells nothing of its bytes.
//
// The first call takes the lock of the file, which the system gives to one process at a time and takes back where that
// ends. Where another process has it, the call has failed. The first sync makes sure of the file's entry in its folder
// too: else a file that was just made might be gone after a crash, with all that was synced in it.
ghost use Rattle.std.specs.Prelude.{◌≡◌, [], false, ⊤};
ghost use Rattle.ev_world.specs.Causes.{HasCause};

use crate::trouble::{Faults, Trouble};
use ev_world::{Disk, Failed};
use std::fs::{File, TryLockError};
use std::io;
use std::os::unix::fs::FileExt;

/// A file of the system, in its folder.
#[derive(Drop)]
pub struct FileDisk {
    file: File,
    folder: File,
    is_locked: bool,
    is_entered: bool,
    faults: Faults,
}

impl FileDisk {
    /// The disk of a file in this folder. Nothing is asked of either yet.
    pub fn new(file: File, folder: File) -> Self {
        FileDisk {
            file,
            folder,
            is_locked: false,
            is_entered: false,
            faults: Faults::none(),
        }
    }

    /// Why it failed first, where it did.
    pub fn trouble(&self) -> Option<&Trouble> {
        self.faults.first()
    }

    // Takes the lock of the file, where this disk doesn't have it yet.
    fn lock(&mut self) -> Result<(), Failed>
        ensures cause { HasCause self.old.faults.count self.new.faults.count result }
    {
        if self.is_locked {
            return Ok(());
        }
        match self.file.try_lock() {
            Ok(()) => {
                self.is_locked = true;
                Ok(())
            }
            Err(TryLockError::WouldBlock) => Err(self.faults.raise(Trouble::InUse)),
            Err(TryLockError::Error(error)) => Err(self.faults.refused("locked", error)),
        }
    }

    // Makes sure of the file's bytes and length, and at first of its entry in the folder.
    fn settle(&mut self) -> io::Result<()>
        ensures { self.new.faults ≡ self.old.faults }
    {
        self.file.sync_all()?;
        if !self.is_entered {
            self.folder.sync_all()?;
            self.is_entered = true;
        }
        Ok(())
    }
}

impl Disk for FileDisk {
    ghost tells = { false };

    ghost reads = { λ d. [] };

    ghost faults = { λ d. d.faults.count };

    ghost images = { λ d c. ⊤ };

    ghost clock = { λ d. 0 };

    ghost since = { λ d t c. ⊤ };

    ghost reads_now = { λ d tells. tt };

    ghost counts_now = { λ d t c tells le now. tt };

    ghost only_now = { λ d c tells left. tt };

    fn len(&mut self) -> Result<u64, Failed> {
        self.lock()?;
        match self.file.metadata() {
            Ok(about) => Ok(about.len()),
            Err(error) => Err(self.faults.refused("measured", error)),
        }
    }

    fn read_at(&mut self, place: u64, out: &mut [u8]) -> Result<(), Failed> {
        self.lock()?;
        match self.file.read_exact_at(out, place) {
            Ok(()) => Ok(()),
            Err(error) => Err(self.faults.refused("read", error)),
        }
    }

    fn write_at(&mut self, place: u64, bytes: &[u8]) -> Result<(), Failed> {
        self.lock()?;
        match self.file.write_all_at(bytes, place) {
            Ok(()) => Ok(()),
            Err(error) => Err(self.faults.refused("written", error)),
        }
    }

    fn sync(&mut self) -> Result<(), Failed> {
        self.lock()?;
        match self.settle() {
            Ok(()) => Ok(()),
            Err(error) => Err(self.faults.refused("synced", error)),
        }
    }

    fn faults(&self) -> u64 {
        self.faults.count
    }
}
