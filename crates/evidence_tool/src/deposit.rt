// A request that deposits: the document becomes an entry, a group of its own, and the store takes it.
ghost use Rattle.std.specs.Prelude.{◌≡◌, ◌≤◌, [], ◌∷◌, length, IsTrue, IfOk, OnOk};
ghost use Rattle.entry_codec.specs.Spelling.{IsEntry};
ghost use Rattle.archive_store.specs.Told.{entries_of};
ghost use Rattle.evidence_tool.specs.Requests.{to_deposit};
ghost use Rattle.evidence_tool.specs.Entries.{deposit_of};
ghost use Rattle.evidence_tool.specs.Inside.{IsStep};
ghost use Rattle.evidence_tool.specs.Session.{IsAnswered};
ghost use Rattle.evidence_tool.specs.Stops.{begun_by, done_by};

use crate::fault_reply::reply_to;
use crate::place::place_in;
use crate::reply::Reply;
use archive_store::Store;
use der_values::{Bytes, Items};
use entry_codec::Entry;
use ev_world::Disk;
use object_groups::Group;
use std::alloc::{AllocError, Global};

/// Keeps a document as a group of its own.
pub fn deposit<D: Disk>(alloc: Global, store: &mut Store<D>, document: &[u8]) -> Reply
    requires { length document.now ≤ 1048576 }
    ensures answer { IsAnswered D.tells D.images D.faults store.old (to_deposit document.now) result store.new }
    ensures stops { IsTrue D.tells → IsStep D.reads D.images D.clock D.since store.old.disk store.new.disk (entries_of store.old.told)
        (begun_by (to_deposit document.now) result) (done_by (to_deposit document.now) result) }
{
    let place = place_in(store);
    let first = store.archive().groups();
    let Ok(entry) = entry_of(alloc, document) else {
        return Reply::Memory(place);
    };
    match store.step(&entry, &[]) {
        Ok(number) => Reply::Deposited(number, first, 1),
        Err(fault) => reply_to(place, fault),
    }
}

// The entry that deposits a document as a group of its own.
fn entry_of(alloc: Global, document: &[u8]) -> Result<Entry, AllocError>
    requires { length document.now ≤ 1048576 }
    ensures entry { IfOk result (λ entry. entry ≡ deposit_of document.now) }
    ensures valid { OnOk result (IsEntry (deposit_of document.now)) }
{
    let mut groups = Vec::new(alloc);
    groups.push(group_of(alloc, document)?)?;
    Ok(Entry::Deposit {
        groups: Items::from_vec(groups),
    })
}

// The group of this document alone.
fn group_of(alloc: Global, document: &[u8]) -> Result<Group, AllocError>
    requires { length document.now ≤ 1048576 }
    ensures { IfOk result (λ group. group ≡ document.now ∷ []) }
{
    let mut documents = Vec::new(alloc);
    documents.push(Bytes::from_vec(document.to_vec(alloc)?))?;
    let Ok(group) = Group::new(Items::from_vec(documents)) else {
        unreachable!()
    };
    Ok(group)
}
