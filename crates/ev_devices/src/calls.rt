// The calls of a device in memory.
ghost use Rattle.std.specs.Prelude.{◌≡◌, ◌≤◌, ◌↔◌, IsErr, OnOk, OnErr, Contains};
ghost use Rattle.ev_world.specs.Causes.{Rose, HasCause};
ghost use Rattle.ev_devices.specs.Devices.{counted};

use der_values::Items;
use ev_world::Failed;

/// How many calls there were and how many have failed, and the numbers of those that are to fail.
#[derive(Drop)]
pub(crate) struct Calls {
    pub(crate) failing: Items<u64>,
    pub(crate) number: u64,
    pub(crate) faults: u64,
}

impl Calls {
    pub(crate) fn new(failing: Items<u64>) -> Calls
        ensures { result ≡ record { failing = failing; number = 0; faults = 0 } }
    {
        Calls {
            failing,
            number: 0,
            faults: 0,
        }
    }

    /// Begins a call, and fails where it is one that is to fail.
    pub(crate) fn begin(&mut self) -> Result<(), Failed>
        ensures cause { HasCause self.old.faults self.new.faults result }
        ensures fails { IsErr result ↔ Contains self.old.failing self.old.number }
        ensures number { self.new.number ≡ counted self.old.number }
        ensures ok { OnOk result (self.new ≡ record self.old { number = counted self.old.number }) }
        ensures err { OnErr result (self.new ≡ record self.old {
          number = counted self.old.number;
          faults = counted self.old.faults;
        }) }
    {
        let number = self.number;
        self.number = number.saturating_add(1);
        if self.failing.as_slice().contains(&number) {
            return Err(self.fail());
        }
        Ok(())
    }

    /// Begins a call that fails.
    pub(crate) fn stop(&mut self) -> Failed
        ensures later { self.old.faults ≤ self.new.faults }
        ensures rose { Rose self.old.faults self.new.faults }
        ensures number { self.new.number ≡ counted self.old.number }
        ensures counts { self.new ≡ record self.old { number = counted self.old.number; faults = counted self.old.faults } }
    {
        self.number = self.number.saturating_add(1);
        self.fail()
    }

    /// Counts the fault of a call that was begun.
    pub(crate) fn fail(&mut self) -> Failed
        ensures later { self.old.faults ≤ self.new.faults }
        ensures rose { Rose self.old.faults self.new.faults }
        ensures counts { self.new ≡ record self.old { faults = counted self.old.faults } }
    {
        self.faults = self.faults.saturating_add(1);
        Failed
    }
}
