// How an authority keeps the list of its calls.
ghost use Rattle.std.specs.Prelude.{◌≡◌, [], ◌++◌, ◌∷◌, None, Some, false, IsTrue, IfOk, IfErr, OnOk, OnErr};
ghost use Rattle.ev_world.specs.Calls.{IsListed, HandsOn};

use crate::{StampCall, StampFault};
use civil_moment::Moment;
use der_values::Bytes;
use std::alloc::{AllocError, Global};
use std::marker::Model;

/// The calls of an authority, in order. A call is begun before the authority is asked, and is listed once it has answered: its
/// room is taken first, so that no call that was made is lost for want of memory. Contracts see the list, and whether there is
/// room for one call more.
#[derive(Drop)]
pub struct StampCalls {
    alloc: Global,
    list: Vec<StampCall>,
    // Whether the list has room for one call more.
    has_room: bool,
}

impl Model for StampCalls {
    ghost use Rattle.std.specs.Prelude.{◌+◌, ◌≤◌, IsTrue, vec_len, vec_capacity};
    ghost use Rattle.ev_world.specs.CallList.{CallList};

    ghost Value = { CallList };

    ghost view = { λ c. record { list = c.list.items; has_room = c.has_room } };

    ghost invariant = { λ c. IsTrue c.has_room → vec_len c.list + 1 ≤ vec_capacity c.list };
}

impl StampCalls {
    /// No calls.
    pub fn new(alloc: Global) -> StampCalls
        ensures { result ≡ record { list = []; has_room = false } }
    {
        StampCalls {
            alloc,
            list: Vec::new(alloc),
            has_room: false,
        }
    }

    /// The calls.
    pub fn as_slice(&self) -> &[StampCall]
        ensures { result.now ≡ self.now.list }
    {
        &self.list
    }

    /// Begins a call: takes the room for it, and copies its request.
    pub fn begin(&mut self, request: &[u8]) -> Result<Bytes, AllocError>
        ensures same { self.new.list ≡ self.old.list }
        ensures room { OnOk result (IsTrue self.new.has_room) }
        ensures copy { IfOk result (λ copy. copy ≡ request.now) }
    {
        let copy = copied(self.alloc, request)?;
        self.list.reserve(1)?;
        self.has_room = true;
        Ok(copy)
    }

    /// Ends a call that was begun: lists it with its answer, and hands the answer on. A reply that can't be kept is want of
    /// memory, and such a call isn't listed.
    pub fn end(
        &mut self,
        now: Moment,
        request: Bytes,
        answer: Result<Vec<u8>, StampFault>,
    ) -> Result<Vec<u8>, StampFault>
        requires { IsTrue self.old.has_room }
        ensures listed { IsListed self.old.list self.new.list now request result }
        ensures handed { HandsOn answer result }
    {
        match answer {
            Ok(reply) => self.end_with(now, request, reply),
            Err(StampFault::Failed) => {
                self.add(now, request, None);
                Err(StampFault::Failed)
            }
            Err(StampFault::Memory) => Err(StampFault::Memory),
        }
    }

    // Lists a call with a copy of its reply.
    fn end_with(
        &mut self,
        now: Moment,
        request: Bytes,
        reply: Vec<u8>,
    ) -> Result<Vec<u8>, StampFault>
        requires { IsTrue self.old.has_room }
        ensures reply { IfOk result (λ given. given.items ≡ reply.items) }
        ensures listed { OnOk result (self.new.list ≡ self.old.list ++ record { now = now; request = request; reply = Some reply.items } ∷ []) }
        ensures same { OnErr result (self.new.list ≡ self.old.list) }
        ensures memory { IfErr result (λ fault. fault ≡ StampFault.Memory) }
    {
        let Ok(copy) = copied(self.alloc, &reply) else {
            return Err(StampFault::Memory);
        };
        self.add(now, request, Some(copy));
        Ok(reply)
    }

    // Lists a call, for which there is room.
    fn add(&mut self, now: Moment, request: Bytes, reply: Option<Bytes>)
        requires { IsTrue self.old.has_room }
        ensures { self.new.list ≡ self.old.list ++ record { now = now; request = request; reply = reply } ∷ [] }
    {
        let call = StampCall {
            now,
            request,
            reply,
        };
        let Ok(()) = self.list.push(call) else {
            unreachable!()
        };
        self.has_room = false;
    }
}

// The bytes in memory of their own.
fn copied(alloc: Global, bytes: &[u8]) -> Result<Bytes, AllocError>
    ensures { IfOk result (λ copy. copy ≡ bytes.now) }
{
    Ok(Bytes::from_vec(Vec::from_slice(alloc, bytes)?))
}
