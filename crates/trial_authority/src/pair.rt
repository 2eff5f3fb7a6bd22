// Two authorities, one before a moment and one from it on.
ghost use Rattle.std.specs.Prelude.{◌≡◌, []};
ghost use Rattle.ev_world.specs.Calls.{IsListed, IsPassedOn};
ghost use Rattle.trial_authority.specs.Pair.{picked, chosen, other};

use civil_moment::{Moment, is_before};
use ev_world::{Authority, StampCall, StampCalls, StampFault};
use std::alloc::Global;
use std::marker::Model;

/// An authority that stamps with a late one from a moment on, and before it with an early one. It fails exactly where that one
/// fails.
#[derive(Drop)]
pub struct TrialPair<A: Authority> {
    alloc: Global,
    early: A,
    late: A,
    from: Moment,
    calls: StampCalls,
}

impl<A: Authority> Model for TrialPair<A> {
    ghost use Rattle.trial_authority.specs.Pair.{Pairing};

    ghost Value = { Pairing A };

    ghost view = { λ p. record { early = p.early; late = p.late; from = p.from; calls = p.calls.list } };
}

impl<A: Authority> TrialPair<A> {
    /// The pair of these authorities, which has made no calls.
    pub fn new(alloc: Global, early: A, late: A, from: Moment) -> TrialPair<A>
        ensures { result ≡ record { early = early; late = late; from = from; calls = [] } }
    {
        TrialPair {
            alloc,
            early,
            late,
            from,
            calls: StampCalls::new(alloc),
        }
    }
}

// Asks the authority of the moment.
fn ask<A: Authority>(
    early: &mut A,
    late: &mut A,
    from: Moment,
    now: Moment,
    request: &[u8],
) -> Result<Vec<u8>, StampFault>
    ensures listed { IsListed (A.made (picked from now early.old late.old)) (A.made (picked from now early.new late.new)) now request.now result }
    ensures other { picked from now late.new early.new ≡ picked from now late.old early.old }
{
    if is_before(&now, &from) {
        early.stamp(now, request)
    } else {
        late.stamp(now, request)
    }
}

impl<A: Authority> Authority for TrialPair<A> {
    ghost made = { λ p. p.calls };

    fn stamp(&mut self, now: Moment, request: &[u8]) -> Result<Vec<u8>, StampFault>
        ensures listed { IsListed self.old.calls self.new.calls now request.now result }

        // The authority of the moment was asked this request, and its reply is the reply; it failed exactly where this one fails.
        ensures passed { IsPassedOn (λ b. b) (A.made (chosen self.old now)) (A.made (chosen self.new now)) now request.now result }
        // The other one was not.
        ensures other { other self.new now ≡ other self.old now }
        ensures from { self.new.from ≡ self.old.from }
    {
        let Ok(copy) = self.calls.begin(request) else {
            return Err(StampFault::Memory);
        };
        let answer = ask(&mut self.early, &mut self.late, self.from, now, request);
        self.calls.end(now, copy, answer)
    }

    fn calls(&self) -> &[StampCall]
        ensures { result.now ≡ self.now.calls }
    {
        self.calls.as_slice()
    }
}
