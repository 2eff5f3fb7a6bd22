ghost use Rattle.std.specs.Prelude.{◌≡◌, ◌↔◌, ◌≤◌, min, length, drop, Some, IsErr, IfOk, OnErr};
ghost use Rattle.std.specs.Io.{ReadsAtMost};
ghost use Rattle.std.specs.Io.KnownBytes.{ReadConsumes};
ghost use Rattle.ev_world.specs.Causes.{HasCause};
ghost use Rattle.ev_devices.specs.Devices.{Device, IsFailing, failed, called};

use crate::calls::Calls;
use der_values::{Bytes, Items};
use ev_world::{Failed, Source};
use std::marker::Model;

/// A source of bytes that are in memory.
#[derive(Drop)]
pub struct MemSource {
    bytes: Bytes,
    place: usize,
    calls: Calls,
}

impl Model for MemSource {
    ghost use Rattle.std.specs.Prelude.{◌≤◌, length, drop};
    ghost use Rattle.ev_devices.specs.Devices.{Device};

    ghost Value = { Device };

    ghost view = { λ s. record {
      bytes = drop s.place s.bytes;
      failing = s.calls.failing;
      calls = s.calls.number;
      faults = s.calls.faults;
    } };

    ghost invariant = { λ s. s.place ≤ length s.bytes };
}

impl MemSource {
    /// A source of these bytes, whose calls of these numbers fail.
    pub fn new(bytes: Bytes, failing: Items<u64>) -> MemSource
        ensures { result ≡ record { bytes = bytes; failing = failing; calls = 0; faults = 0 } }
    {
        MemSource {
            bytes,
            place: 0,
            calls: Calls::new(failing),
        }
    }
}

impl Source for MemSource {
    ghost left = { λ s. Some s.bytes };

    ghost faults = { λ s. s.faults };

    /// Gives as many bytes as there are, and as fit.
    fn read(&mut self, out: &mut [u8]) -> Result<usize, Failed>
        ensures bound { ReadsAtMost result out.new }
        ensures bytes { ReadConsumes (Some self.old.bytes) (Some self.new.bytes) result out.new }
        ensures cause { HasCause self.old.faults self.new.faults result }
        ensures fails { IsErr result ↔ IsFailing self.old }
        ensures count { IfOk result (λ n. n ≡ min (length out.old) (length self.old.bytes)) }
        ensures ok { IfOk result (λ n. self.new ≡ called self.old (drop n self.old.bytes)) }
        ensures err { OnErr result (self.new ≡ failed self.old) }
    {
        self.calls.begin()?;
        let left = &self.bytes.as_slice()[self.place..];
        let count = out.len().min(left.len());
        out[..count].copy_from_slice(&left[..count]);
        self.place += count;
        Ok(count)
    }
}
