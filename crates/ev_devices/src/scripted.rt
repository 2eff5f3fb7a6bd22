ghost use Rattle.std.specs.Prelude.{◌≡◌, [], Some, IfOk, IsErrOf, length, slice_get};
ghost use Rattle.ev_world.specs.Calls.{IsListed};
ghost use Rattle.ev_devices.specs.Script.{IsSilent};

use civil_moment::Moment;
use der_values::{Bytes, Items};
use ev_world::{Authority, StampCall, StampCalls, StampFault};
use std::alloc::Global;
use std::marker::Model;

/// An authority whose replies are written down beforehand: its k-th call, counted from 0, has the k-th of them. None, and each
/// call past the list, is `Failed`.
#[derive(Drop)]
pub struct Scripted {
    alloc: Global,
    replies: Items<Option<Bytes>>,
    calls: StampCalls,
}

impl Model for Scripted {
    ghost use Rattle.ev_devices.specs.Script.{Script};

    ghost Value = { Script };

    ghost view = { λ s. record { replies = s.replies; calls = s.calls.list } };
}

impl Scripted {
    /// An authority with these replies.
    pub fn new(alloc: Global, replies: Items<Option<Bytes>>) -> Scripted
        ensures { result ≡ record { replies = replies; calls = [] } }
    {
        Scripted {
            alloc,
            replies,
            calls: StampCalls::new(alloc),
        }
    }

    // A copy of the reply to the call of this number.
    fn reply(&self, call: usize) -> Result<Vec<u8>, StampFault>
        ensures script { IfOk result (λ reply. slice_get self.now.replies call ≡ Some (Some reply.items)) }
        ensures silent { IsErrOf result StampFault.Failed → IsSilent self.now.replies call }
    {
        let Some(Some(reply)) = self.replies.as_slice().get(call) else {
            return Err(StampFault::Failed);
        };
        match Vec::from_slice(self.alloc, reply.as_slice()) {
            Ok(copy) => Ok(copy),
            Err(_) => Err(StampFault::Memory),
        }
    }
}

impl Authority for Scripted {
    ghost made = { λ s. s.calls };

    fn stamp(&mut self, now: Moment, request: &[u8]) -> Result<Vec<u8>, StampFault>
        ensures listed { IsListed self.old.calls self.new.calls now request.now result }

        // The replies are those of the list, in order.
        ensures script { IfOk result (λ reply. slice_get self.old.replies (length self.old.calls) ≡ Some (Some reply.items)) }
        ensures silent { IsErrOf result StampFault.Failed → IsSilent self.old.replies (length self.old.calls) }
        ensures kept { self.new.replies ≡ self.old.replies }
    {
        let Ok(copy) = self.calls.begin(request) else {
            return Err(StampFault::Memory);
        };
        let answer = self.reply(self.calls.as_slice().len());
        self.calls.end(now, copy, answer)
    }

    fn calls(&self) -> &[StampCall]
        ensures { result.now ≡ self.now.calls }
    {
        self.calls.as_slice()
    }
}
