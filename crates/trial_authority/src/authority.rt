// The trial authority.
ghost use Rattle.std.specs.Prelude.{◌≡◌, [], Some, None, IfSome, IfOk, IfErr, OnOk};
ghost use Rattle.ev_world.specs.Calls.{IsListed};
ghost use Rattle.trial_authority.specs.Key.{trial_key};
ghost use Rattle.trial_authority.specs.Stamping.{IsKept, IsStamped};

use crate::indexes::Indexes;
use crate::key::key_of;
use crate::stamping::{Call, stamped};
use civil_moment::Moment;
use core::mem::replace_with;
use ev_world::{Authority, Disk, StampCall, StampCalls, StampFault};
use lms_sign::HssKey;
use std::alloc::{AllocError, Global};
use std::marker::Model;

/// An authority with a key from a seed, whose key state stands on a disk that nobody else writes. The first stamp makes the key and
/// opens that state, and makes it where there is no header. Contracts see the seed, the disk, the next index once the state is open, and the calls.
#[derive(Drop)]
pub struct TrialAuthority<B: Disk> {
    alloc: Global,
    seed: [u8; 32],
    // A key is some ten thousands of digests, which a run without a stamp is spared.
    key: Option<HssKey>,
    indexes: Indexes<B>,
    calls: StampCalls,
}

impl<B: Disk> Model for TrialAuthority<B> {
    ghost use Rattle.std.specs.Prelude.{◌≡◌, IfSome};
    ghost use Rattle.trial_authority.specs.Key.{trial_key};
    ghost use Rattle.trial_authority.specs.Stamping.{Stamping};
    ghost use Rattle.trial_authority.specs.Inside.{IsHeld};
    ghost use Rattle.trial_authority.specs.Stamping.{disk_of, state_of};

    ghost Value = { Stamping B };

    ghost view = { λ a. record { seed = a.seed; disk = disk_of a.indexes; state = state_of a.indexes; calls = a.calls.list } };

    ghost invariant = { λ a. IfSome a.key (λ key. key ≡ trial_key a.seed) × IsHeld B.tells B.reads B.images a.indexes };
}

impl<B: Disk> TrialAuthority<B> {
    /// An authority with the key of this seed, which has made no calls. It asks nothing of the disk.
    pub fn new(alloc: Global, disk: B, seed: [u8; 32]) -> Result<TrialAuthority<B>, (B, AllocError)>
        ensures ok { IfOk result (λ a. a ≡ record { seed = seed; disk = disk; state = None; calls = [] }) }
        ensures err { IfErr result (λ e. e.0 ≡ disk) }
    {
        Ok(TrialAuthority {
            alloc,
            seed,
            key: None,
            indexes: Indexes::Unopened(disk),
            calls: StampCalls::new(alloc),
        })
    }

    /// Hands the disk back.
    pub fn close(self) -> B
        ensures { result ≡ self.disk }
    {
        self.indexes.into_disk()
    }
}

impl<B: Disk> Authority for TrialAuthority<B> {
    ghost made = { λ a. a.calls };

    fn stamp(&mut self, now: Moment, request: &[u8]) -> Result<Vec<u8>, StampFault>
        ensures listed { IsListed self.old.calls self.new.calls now request.now result }
        ensures stamped { IsStamped B.tells B.reads B.images B.clock B.since B.faults self.old.seed self.old.disk self.old.state self.new.disk self.new.state now request.now result }
        // Every crash from now on leaves a state whose next index isn't lower than the authority's.
        ensures kept { IsKept B.tells B.reads B.images self.new.disk self.new.state }
        ensures seed { self.new.seed ≡ self.old.seed }
    {
        let (Ok(copy), Ok(())) = (
            self.calls.begin(request),
            make_key(self.alloc, &self.seed, &mut self.key),
        ) else {
            return Err(StampFault::Memory);
        };
        let Some(key) = &self.key else {
            return Err(StampFault::Memory);
        };
        let call = Call {
            alloc: self.alloc,
            key,
            now,
            request,
        };
        let answer = replace_with(&mut self.indexes, call, stamped);
        self.calls.end(now, copy, answer)
    }

    fn calls(&self) -> &[StampCall]
        ensures { result.now ≡ self.now.calls }
    {
        self.calls.as_slice()
    }
}

// Makes the key of the seed, where it isn't made yet.
fn make_key(alloc: Global, seed: &[u8; 32], key: &mut Option<HssKey>) -> Result<(), AllocError>
    requires { IfSome key.old (λ k. k ≡ trial_key seed.now) }
    ensures made { OnOk result (key.new ≡ Some (trial_key seed.now)) }
    ensures kept { IfSome key.new (λ k. k ≡ trial_key seed.now) }
{
    if key.is_none() {
        *key = Some(key_of(alloc, seed)?);
    }
    Ok(())
}
