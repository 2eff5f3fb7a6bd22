// The bytes of a disk in memory: those that it began with, and those of now.
ghost use Rattle.std.specs.Prelude.{◌≡◌, false, OnOk, OnErr};
ghost use Rattle.ev_world.specs.Disk.{put};

use std::alloc::{AllocError, Global};
use std::marker::Model;

// Until the first write the bytes are not copied.
#[derive(Drop)]
pub(crate) struct Content {
    first: Vec<u8>,
    bytes: Vec<u8>,
    is_changed: bool,
}

impl Model for Content {
    ghost use Rattle.ev_devices.specs.Inside.{Bytes, current};

    ghost Value = { Bytes };

    ghost view = { λ c. record { first = c.first.items; now = current c.is_changed c.first.items c.bytes.items } };
}

impl Content {
    pub(crate) fn new(alloc: Global, first: Vec<u8>) -> Content
        ensures { result ≡ record { first = first.items; now = first.items } }
    {
        Content {
            first,
            bytes: Vec::new(alloc),
            is_changed: false,
        }
    }

    pub(crate) fn bytes(&self) -> &[u8]
        ensures { result.now ≡ self.now.now }
    {
        if self.is_changed {
            &self.bytes
        } else {
            &self.first
        }
    }

    pub(crate) fn into_first(self) -> Vec<u8>
        ensures { result.items ≡ self.first }
    {
        self.first
    }

    /// Writes over what is there, and past the end. An Err changes nothing.
    pub(crate) fn write(
        &mut self,
        alloc: Global,
        place: u64,
        bytes: &[u8],
    ) -> Result<(), AllocError>
        ensures ok { OnOk result (self.new ≡ record { first = self.old.first; now = put self.old.now place bytes.now }) }
        ensures err { OnErr result (self.new ≡ self.old) }
    {
        if self.is_changed {
            return overwrite(&mut self.bytes, place, bytes);
        }
        let mut copy = self.first.to_vec(alloc)?;
        overwrite(&mut copy, place, bytes)?;
        self.bytes = copy;
        self.is_changed = true;
        Ok(())
    }
}

/// Writes over what is there, and past the end. The room is taken first: an Err changes nothing.
pub(crate) fn overwrite(old: &mut Vec<u8>, place: u64, bytes: &[u8]) -> Result<(), AllocError>
    ensures ok { OnOk result (old.new.items ≡ put old.old.items place bytes.now) }
    ensures err { OnErr result (old.new.items ≡ old.old.items) }
{
    let place = (old.len() as u64).min(place) as usize;
    let inside = bytes.len().min(old.len() - place);
    old.extend_from_slice(&bytes[inside..])?;
    old[place..place + inside].copy_from_slice(&bytes[..inside]);
    Ok(())
}
