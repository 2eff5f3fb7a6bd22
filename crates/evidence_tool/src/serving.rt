// The command `serve`: requests are read to the end of the input, and answered over the archive.
ghost use Rattle.std.specs.Prelude.{◌≡◌, ◌≤◌, map, IsTrue};
ghost use Rattle.std.specs.List.{AllByRecursion};
ghost use Rattle.evidence_tool.specs.Input.{TakesAtMost};
ghost use Rattle.evidence_tool.specs.Requests.{IsInRange};
ghost use Rattle.evidence_tool.specs.Inside.{asked, served_status};
ghost use Rattle.evidence_tool.specs.Served.{ends_by, IsServing, IsServed};
ghost use Rattle.evidence_tool.specs.Status.{code_of};

use crate::input::{read_all, unread};
use crate::refusing::refuse;
use crate::request::{Request, RequestsFault, read_requests};
use crate::session::{Served, serve_all};
use crate::status::Status;
use archive_store::Store;
use ev_world::{Disk, Sink, Source};
use std::alloc::Global;

/// Reads requests to the end of the input, then opens the archive and answers them one by one: the status, and the disk.
pub fn serve_input<S: Source, K: Sink, J: Disk>(
    alloc: Global,
    input: &mut S,
    output: &mut K,
    journal: J,
) -> (Status, J)
    ensures serve { IsServed (S.left input.old) (S.left input.new) (S.faults input.old) (S.faults input.new)
        (ends_by K.taken K.faults J.tells J.reads J.images J.clock J.since J.faults
        output.old output.new journal result.1)
        (code_of result.0) }
    ensures bounded { TakesAtMost 67108865 (S.left input.old) (S.left input.new) }
    ensures source_later { S.faults input.old ≤ S.faults input.new }
    ensures sink_later { K.faults output.old ≤ K.faults output.new }
    ensures disk_later { J.faults journal ≤ J.faults result.1 }
{
    let bytes = match read_all(alloc, input) {
        Ok(bytes) => bytes,
        Err(fault) => return (unread(fault), journal),
    };
    match read_requests(alloc, &bytes) {
        Ok(requests) => serve_requests(alloc, &requests, output, journal),
        Err(RequestsFault::Shape) => (Status::BadInput, journal),
        Err(RequestsFault::Memory) => (Status::NoMemory, journal),
    }
}

// Opens the archive, and answers the requests.
fn serve_requests<K: Sink, J: Disk>(
    alloc: Global,
    requests: &[Request],
    output: &mut K,
    journal: J,
) -> (Status, J)
    requires { AllByRecursion IsInRange (map asked requests.now) }
    ensures serving { IsServing
        (ends_by K.taken K.faults J.tells J.reads J.images J.clock J.since J.faults
        output.old output.new journal result.1)
        (map asked requests.now) (code_of result.0) }
    ensures sink_later { K.faults output.old ≤ K.faults output.new }
    ensures disk_later { J.faults journal ≤ J.faults result.1 }
{
    match Store::open(alloc, journal) {
        Ok(store) => {
            let mut store = store;
            // What every store keeps says what a stop leaves of this one.
            let _ = store.archive();
            let served = serve_all(alloc, &mut store, requests, output);
            (status_of(served), store.close())
        }
        Err((journal, fault)) => (refuse(alloc, &fault, output), journal),
    }
}

fn status_of(served: Served) -> Status
    ensures { result ≡ served_status served }
{
    match served {
        Served::Done { disk: true, .. } => Status::DiskFault,
        Served::Done { memory: true, .. } => Status::NoMemory,
        Served::Done { .. } => Status::Done,
        Served::WriteFault => Status::WriteFault,
        Served::Memory => Status::NoMemory,
    }
}
