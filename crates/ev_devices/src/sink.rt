ghost use Rattle.std.specs.Prelude.{◌≡◌, ◌≤◌, ◌<◌, [], ◌++◌, min, length, take, Some, IsErr, IfOk, OnErr};
ghost use Rattle.std.specs.Io.{WritesAtMost};
ghost use Rattle.std.specs.Io.KnownBytes.{WriteAppends};
ghost use Rattle.ev_world.specs.Causes.{HasCause};
ghost use Rattle.ev_devices.specs.Devices.{IsFailing, failed, called};

use crate::calls::Calls;
use der_values::Items;
use ev_world::{Failed, Sink};
use std::alloc::Global;
use std::marker::Model;

/// A sink that keeps its bytes in memory.
#[derive(Drop)]
pub struct MemSink {
    taken: Vec<u8>,
    most: usize,
    calls: Calls,
}

impl Model for MemSink {
    ghost use Rattle.std.specs.Prelude.{◌≤◌};
    ghost use Rattle.ev_devices.specs.Devices.{SinkDevice};

    ghost Value = { SinkDevice };

    ghost view = { λ s. record {
      device = record {
        bytes = s.taken.items;
        failing = s.calls.failing;
        calls = s.calls.number;
        faults = s.calls.faults;
      };
      most = s.most;
    } };

    ghost invariant = { λ s. 1 ≤ s.most };
}

impl MemSink {
    /// An empty sink that takes so many bytes at once, and whose calls of these numbers fail.
    pub fn new(alloc: Global, failing: Items<u64>, most: usize) -> MemSink
        requires { 1 ≤ most }
        ensures device { result.device
            ≡ record { bytes = []; failing = failing; calls = 0; faults = 0 } }
        ensures most { result.most ≡ most }
    {
        MemSink {
            taken: Vec::new(alloc),
            most,
            calls: Calls::new(failing),
        }
    }

    /// The bytes that it has taken.
    pub fn taken(&self) -> &[u8]
        ensures { result.now ≡ self.now.device.bytes }
    {
        &self.taken
    }
}

impl Sink for MemSink {
    ghost taken = { λ s. Some s.device.bytes };

    ghost faults = { λ s. s.device.faults };

    fn write(&mut self, bytes: &[u8]) -> Result<usize, Failed>
        ensures bound { WritesAtMost result bytes.now }
        ensures some { IfOk result (λ n. 0 < length bytes.now → 0 < n) }
        ensures bytes { WriteAppends (Some self.old.device.bytes) (Some self.new.device.bytes) result bytes.now }
        ensures cause { HasCause self.old.device.faults self.new.device.faults result }

        // It fails at the calls of its numbers, and else for want of memory alone.
        ensures fails { IsFailing self.old.device → IsErr result }
        ensures count { IfOk result (λ n. n ≡ min self.old.most (length bytes.now)) }
        ensures ok { IfOk result (λ n.
            self.new.device ≡ called self.old.device (self.old.device.bytes ++ take n bytes.now)) }
        ensures err { OnErr result (self.new.device ≡ failed self.old.device) }
        ensures most { self.new.most ≡ self.old.most }
    {
        self.calls.begin()?;
        let count = self.most.min(bytes.len());
        match self.taken.extend_from_slice(&bytes[..count]) {
            Ok(()) => Ok(count),
            Err(_) => Err(self.calls.fail()),
        }
    }
}
