// A request that the store doesn't meet.
ghost use Rattle.std.specs.Prelude.{◌≡◌};
ghost use Rattle.evidence_tool.specs.Inside.{IsAnswerable, reply_to};

use crate::reply::Reply;
use archive_chain::Refusal;
use archive_store::StoreFault;

/// What a fault of a step or of a fetch is answered at a place.
pub fn reply_to(place: u64, fault: StoreFault) -> Reply
    requires { IsAnswerable fault }
    ensures { result ≡ reply_to place fault }
{
    match fault {
        StoreFault::Refused(Refusal::Limit(full)) => Reply::Full(place, full),
        StoreFault::Closed { place: at } => Reply::Closed(place, at),
        StoreFault::Unknown { id, groups } => Reply::Unknown(place, id, groups),
        StoreFault::DiskFault => Reply::Disk(place),
        StoreFault::Memory => Reply::Memory(place),
        _ => unreachable!(),
    }
}
