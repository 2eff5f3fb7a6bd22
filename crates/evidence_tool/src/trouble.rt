// How often a real device has failed, and what its first fault was, for a line on standard error.
ghost use Rattle.std.specs.Prelude.{◌≡◌, ◌≤◌};
ghost use Rattle.ev_world.specs.Causes.{Rose};

use ev_world::Failed;
use std::fmt::{Display, Formatter, Write};
use std::{fmt, io};

/// Why a call of a device has failed.
#[derive(Drop)]
pub enum Trouble {
    /// Another process holds the lock of the file.
    InUse,
    /// The system refused what was asked.
    Refused {
        call: &'static str,
        error: io::Error,
    },
}

impl Display for Trouble {
    fn fmt<W: Write>(&self, f: &mut Formatter<W>) -> fmt::Result {
        match self {
            Trouble::InUse => f.write_str("another run is at work on it"),
            Trouble::Refused { call, error } => write!(f, "it can't be {call}: {error}"),
        }
    }
}

/// The faults of a device.
#[derive(Drop)]
pub(crate) struct Faults {
    pub(crate) count: u64,
    first: Option<Trouble>,
}

impl Faults {
    pub(crate) fn none() -> Faults
        ensures { result.count ≡ 0 }
    {
        Faults {
            count: 0,
            first: None,
        }
    }

    /// Counts a fault, and keeps what it was where it is the first.
    pub(crate) fn raise(&mut self, trouble: Trouble) -> Failed
        ensures later { self.old.count ≤ self.new.count }
        ensures rose { Rose self.old.count self.new.count }
    {
        self.count = self.count.saturating_add(1);
        if self.first.is_none() {
            self.first = Some(trouble);
        }
        Failed
    }

    /// The same for a call that the system refused.
    pub(crate) fn refused(&mut self, call: &'static str, error: io::Error) -> Failed
        ensures later { self.old.count ≤ self.new.count }
        ensures rose { Rose self.old.count self.new.count }
    {
        self.raise(Trouble::Refused { call, error })
    }

    /// The first fault, where there was one.
    pub(crate) fn first(&self) -> Option<&Trouble> {
        self.first.as_ref()
    }
}
