ghost use Rattle.std.specs.Prelude.{◌≡◌, [], IfOk};
ghost use Rattle.ev_world.specs.Calls.{IsListed, IsPassedOn};
ghost use Rattle.ev_devices.specs.Bend.{bent, bent_request, bent_reply};

use civil_moment::Moment;
use ev_world::{Authority, StampCall, StampCalls, StampFault};
use std::alloc::{AllocError, Global};
use std::marker::Model;

/// What is bent on the way to an authority or back.
#[derive(Clone, Copy, Debug, PartialEq, Eq)]
pub enum BendAt {
    Request,
    Reply,
}

/// An authority over another one. In each request, or in each reply, the bits of a mask are turned in the byte that stands
/// `from_end` bytes before the end; a text without that byte passes as it is. It fails exactly where the inner one fails.
#[derive(Drop)]
pub struct Bent<A: Authority> {
    alloc: Global,
    inner: A,
    at: BendAt,
    from_end: u32,
    mask: u8,
    calls: StampCalls,
}

impl<A: Authority> Model for Bent<A> {
    ghost use Rattle.ev_devices.specs.Bend.{Bending};

    ghost Value = { Bending A };

    ghost view = { λ b. record { inner = b.inner; at = b.at; from_end = b.from_end; mask = b.mask; calls = b.calls.list } };
}

impl<A: Authority> Bent<A> {
    /// Bends what goes to this authority, or comes from it.
    pub fn new(alloc: Global, inner: A, at: BendAt, from_end: u32, mask: u8) -> Bent<A>
        ensures { result ≡ record { inner = inner; at = at; from_end = from_end; mask = mask; calls = [] } }
    {
        Bent {
            alloc,
            inner,
            at,
            from_end,
            mask,
            calls: StampCalls::new(alloc),
        }
    }

    /// The authority that is asked.
    pub fn inner(&self) -> &A
        ensures { result.now ≡ self.now.inner }
    {
        &self.inner
    }

    // The request as the inner authority gets it.
    fn asked(&self, request: &[u8]) -> Result<Vec<u8>, AllocError>
        ensures { IfOk result (λ text. text.items ≡ bent_request self.now request.now) }
    {
        let mut asked = Vec::from_slice(self.alloc, request)?;
        if self.at == BendAt::Request {
            bend(&mut asked, self.from_end, self.mask);
        }
        Ok(asked)
    }

    // The reply as it is handed out.
    fn handed(&self, reply: Vec<u8>) -> Vec<u8>
        ensures { result.items ≡ bent_reply self.now reply.items }
    {
        let mut handed = reply;
        if self.at == BendAt::Reply {
            bend(&mut handed, self.from_end, self.mask);
        }
        handed
    }
}

// Turns the bits of the mask in one byte.
fn bend(text: &mut [u8], from_end: u32, mask: u8)
    ensures { text.new ≡ bent from_end mask text.old }
{
    let from_end = from_end as usize;
    if from_end < text.len() {
        let place = text.len() - 1 - from_end;
        text[place] ^= mask;
    }
}

impl<A: Authority> Authority for Bent<A> {
    ghost made = { λ b. b.calls };

    fn stamp(&mut self, now: Moment, request: &[u8]) -> Result<Vec<u8>, StampFault>
        ensures listed { IsListed self.old.calls self.new.calls now request.now result }

        // The inner authority was asked the bent request, and its reply was bent; it failed exactly where this one fails.
        ensures passed { IsPassedOn (bent_reply self.old) (A.made self.old.inner) (A.made self.new.inner) now (bent_request self.old request.now) result }
        ensures same { record self.new { inner = self.old.inner; calls = self.old.calls } ≡ self.old }
    {
        let (Ok(copy), Ok(asked)) = (self.calls.begin(request), self.asked(request)) else {
            return Err(StampFault::Memory);
        };
        match self.inner.stamp(now, &asked) {
            Ok(reply) => {
                let handed = self.handed(reply);
                self.calls.end(now, copy, Ok(handed))
            }
            Err(fault) => self.calls.end(now, copy, Err(fault)),
        }
    }

    fn calls(&self) -> &[StampCall]
        ensures { result.now ≡ self.now.calls }
    {
        self.calls.as_slice()
    }
}
