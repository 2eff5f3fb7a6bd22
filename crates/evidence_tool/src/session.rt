// One client's requests, answered in order.
ghost use Rattle.std.specs.Prelude.{◌≡◌, ◌≤◌, ℕ, List, map, IsTrue, vec_capacity, Bool};
ghost use Rattle.std.specs.List.{AllByRecursion};
ghost use Rattle.ev_world.specs.Causes.{Rose};
ghost use Rattle.archive_store.specs.Told.{entries_of};
ghost use Rattle.archive_store.specs.Images.{ReadsHistory};
ghost use Rattle.evidence_tool.specs.Requests.{IsInRange};
ghost use Rattle.evidence_tool.specs.Inside.{asked, IsStep, IsRun};
ghost use Rattle.evidence_tool.specs.Replies.{reply_text};
ghost use Rattle.evidence_tool.specs.Session.{IsAnswered};
ghost use Rattle.evidence_tool.specs.Served.{AllAnswered, OneUnwritten};
ghost use Rattle.evidence_tool.specs.Stops.{begun_by, done_by};

use crate::answering::answer;
use crate::output::write_all;
use crate::place::place_in;
use crate::reply::{Reply, write_reply};
use crate::request::Request;
use archive_store::Store;
use ev_world::{Disk, Sink};
use std::alloc::Global;

/// The room for a reply that must not be refused, in bytes.
const ROOM: usize = 4096;

/// How a session ended.
#[derive(Drop)]
pub enum Served {
    /// Each request was answered: whether a reply says that the disk failed, and whether one says that there was no memory.
    Done { disk: bool, memory: bool },
    /// The sink failed.
    WriteFault,
    /// There was no memory for the buffer, and no request was begun.
    Memory,
}

/// Answers requests one by one, and writes each reply before the next request.
pub fn serve_all<D: Disk, K: Sink>(
    alloc: Global,
    store: &mut Store<D>,
    requests: &[Request],
    output: &mut K,
) -> Served
    requires range { AllByRecursion IsInRange (map asked requests.now) }
    // A stop leaves the history that the store tells.
    requires settled { IsTrue D.tells → (c : List ℕ) → D.images store.old.disk c → ReadsHistory c (entries_of store.old.told) }

    ensures done { (disk memory : Bool) → result ≡ Served.Done disk memory
        → AllAnswered D.tells D.images D.faults store.old (map asked requests.now)
        (K.taken output.old) (K.taken output.new) disk memory store.new
        (IsRun D.images D.clock D.since store.old.disk store.new.disk (entries_of store.old.told)) }

    ensures unwritten { result ≡ Served.WriteFault
        → OneUnwritten D.tells D.images D.faults store.old (map asked requests.now)
        (K.taken output.old) (K.taken output.new) store.new
        (IsRun D.images D.clock D.since store.old.disk store.new.disk (entries_of store.old.told)) }
    ensures failed { result ≡ Served.WriteFault → Rose (K.faults output.old) (K.faults output.new) }

    ensures memory_store { result ≡ Served.Memory → store.new ≡ store.old }
    ensures memory_output { result ≡ Served.Memory → output.new ≡ output.old }

    ensures later { K.faults output.old ≤ K.faults output.new }
    ensures disk_later { D.faults store.old.disk ≤ D.faults store.new.disk }
{
    let Ok(mut text) = Vec::with_capacity(alloc, ROOM) else {
        return Served::Memory;
    };
    let mut disk = false;
    let mut memory = false;
    for request in requests {
        let reply = answer_text(alloc, store, request, &mut text);
        let Ok(()) = write_all(output, &text) else {
            return Served::WriteFault;
        };
        disk |= reply.is_disk();
        memory |= reply.is_memory();
    }
    Served::Done { disk, memory }
}

// Answers a request, and puts the reply's text into a buffer with room for each reply that is one line. Documents that
// find no room are not handed out.
fn answer_text<D: Disk>(
    alloc: Global,
    store: &mut Store<D>,
    request: &Request,
    text: &mut Vec<u8>,
) -> Reply
    requires range { IsInRange (asked request.now) }
    requires room { 4096 ≤ vec_capacity text.old }
    ensures answer { IsAnswered D.tells D.images D.faults store.old (asked request.now) result store.new }
    ensures stops { IsTrue D.tells → IsStep D.reads D.images D.clock D.since store.old.disk store.new.disk (entries_of store.old.told)
        (begun_by (asked request.now) result) (done_by (asked request.now) result) }
    ensures text { text.new.items ≡ reply_text result }
    ensures room { 4096 ≤ vec_capacity text.new }
{
    let place = place_in(store);
    let reply = answer(alloc, store, request);
    text.clear();
    if write_reply(text, &reply).is_ok() {
        return reply;
    }
    let memory = Reply::Memory(place);
    let _ = write_reply(text, &memory);
    memory
}
