// The time-stamp of an entry, with the tree that it covers.
ghost use Rattle.std.specs.Prelude.{◌≡◌, Some, None};
ghost use Rattle.std.specs.Option.{option_map};

use civil_moment::Moment;
use der_values::Bytes;
use hash_kit::HashAlg;
use hash_tree::LevelTree;
use std::marker::Model;

/// The time-stamp of a Seal or a renewal: its hash and its token, the time and the signer's identifier that the token
/// says, and the tree that it covers.
#[derive(Debug, Drop)]
pub struct TimeStamp {
    pub alg: HashAlg,
    pub token: Bytes,
    pub time: Moment,
    pub sid: Bytes,
    pub tree: LevelTree,
}

/// The time-stamp of an entry, where it has one.
#[derive(Debug, Drop)]
pub struct Slot {
    held: Option<Box<TimeStamp>>,
}

impl Model for Slot {
    ghost use Rattle.std.specs.Prelude.{Option};
    ghost use Rattle.std.specs.Option.{option_map};
    ghost use Rattle.archive_chain.specs.declared.time_stamp.TimeStamp.{TimeStamp};

    ghost Value = { Option TimeStamp };

    ghost view = { λ s. option_map (λ b. b.value) s.held };
}

impl Slot {
    /// Of an entry without a tree.
    pub(crate) fn none() -> Slot
        ensures { result ≡ None }
    {
        Slot { held: None }
    }

    /// Of an entry with this one.
    pub(crate) fn of(stamp: Box<TimeStamp>) -> Slot
        ensures { result ≡ Some stamp.value }
    {
        Slot { held: Some(stamp) }
    }

    /// The time-stamp, where there is one.
    pub(crate) fn get(&self) -> Option<&TimeStamp>
        ensures { self.now ≡ option_map (λ b. b.now) result }
    {
        match &self.held {
            Some(stamp) => Some(stamp),
            None => None,
        }
    }
}
