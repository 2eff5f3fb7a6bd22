// A request is answered over the store.
ghost use Rattle.std.specs.Prelude.{IsTrue};
ghost use Rattle.archive_store.specs.Told.{entries_of};
ghost use Rattle.evidence_tool.specs.Requests.{to_fetch, IsInRange};
ghost use Rattle.evidence_tool.specs.Inside.{asked, IsStep};
ghost use Rattle.evidence_tool.specs.Session.{IsAnswered};
ghost use Rattle.evidence_tool.specs.Stops.{begun_by, done_by};

use crate::deposit::deposit;
use crate::fault_reply::reply_to;
use crate::place::place_in;
use crate::reply::Reply;
use crate::request::Request;
use archive_store::Store;
use ev_world::Disk;
use std::alloc::Global;

/// Answers a request.
pub fn answer<D: Disk>(alloc: Global, store: &mut Store<D>, request: &Request) -> Reply
    requires { IsInRange (asked request.now) }
    ensures answer { IsAnswered D.tells D.images D.faults store.old (asked request.now) result store.new }
    ensures stops { IsTrue D.tells → IsStep D.reads D.images D.clock D.since store.old.disk store.new.disk (entries_of store.old.told)
        (begun_by (asked request.now) result) (done_by (asked request.now) result) }
{
    match request {
        Request::Deposit { document } => deposit(alloc, store, document),
        Request::Fetch { id } => fetch(store, *id),
    }
}

// Hands out the documents of a group.
fn fetch<D: Disk>(store: &mut Store<D>, id: u32) -> Reply
    ensures answer { IsAnswered D.tells D.images D.faults store.old (to_fetch id) result store.new }
    ensures stops { IsTrue D.tells → IsStep D.reads D.images D.clock D.since store.old.disk store.new.disk (entries_of store.old.told)
        (begun_by (to_fetch id) result) (done_by (to_fetch id) result) }
{
    let place = place_in(store);
    match store.fetch(id) {
        Ok(group) => Reply::Documents(place, group),
        Err(fault) => reply_to(place, fault),
    }
}
