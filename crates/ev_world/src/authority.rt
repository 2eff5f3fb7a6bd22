// An authority that stamps requests. Its replies are not trusted.
ghost use Rattle.std.specs.Prelude.{◌≡◌, List};
ghost use Rattle.ev_world.specs.Calls.{IsListed};

use civil_moment::Moment;
use der_values::Bytes;

/// One call of an authority: the moment that it was handed, the request, and its reply where it gave one.
#[derive(Debug, Drop)]
pub struct StampCall {
    pub now: Moment,
    pub request: Bytes,
    pub reply: Option<Bytes>,
}

/// Why there is no reply.
#[derive(Clone, Copy, Debug, PartialEq, Eq, Drop)]
pub enum StampFault {
    /// The authority gave none, and has it in its list.
    Failed,
    /// There was no memory.
    Memory,
}

/// An authority, by the list of its calls: the calls that it answered with a reply or with `Failed`. A call that finds no
/// memory adds none. The count of its faults is the number of calls without a reply.
pub trait Authority {
    ghost use Rattle.ev_world.specs.declared.authority.StampCall.{StampCall};

    ghost made: { Self → List StampCall };

    /// Asks for a stamp at this moment. What stands behind the authority may have changed whatever it answers.
    fn stamp(&mut self, now: Moment, request: &[u8]) -> Result<Vec<u8>, StampFault>
        ensures { IsListed (made self.old) (made self.new) now request.now result };

    /// The calls, in order.
    fn calls(&self) -> &[StampCall]
        ensures { result.now ≡ made self.now };
}
