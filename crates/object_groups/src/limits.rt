// The limits of a group.
ghost use Rattle.std.specs.Prelude.{◌≡◌, ◌≤◌, ◌<◌, ◌^◌, length, None};
ghost use Rattle.object_groups.specs.Groups.{most_documents, bytes_in, first_long, fault_of};

use crate::GroupFault;
use der_values::Bytes;

/// The most documents of a group.
pub const MOST_DOCUMENTS: usize = 64;

/// The most bytes of a document: 1 MiB.
pub const LONGEST_DOCUMENT: usize = 1_048_576;

/// The most bytes of all documents of a group together: 4 MiB.
pub const MOST_BYTES: u64 = 4_194_304;

// The place of the first document that is too long.
#[tactic(auto, using(crate::proofs::LimitLemmas::shifted_more))]
fn first_long(documents: &[Bytes]) -> Option<u32>
    requires { length documents.now ≤ most_documents }
    ensures { result ≡ first_long documents.now }
{
    let mut place = 0;
    for document in documents {
        if document.as_slice().len() > LONGEST_DOCUMENT {
            return Some(place);
        }
        place += 1;
    }
    None
}

// How many bytes the documents have together.
fn total(documents: &[Bytes]) -> u64
    requires few { length documents.now ≤ most_documents }
    requires short { first_long documents.now ≡ None }
    ensures { result ≡ bytes_in documents.now }
{
    let mut total = 0;
    for document in documents {
        total += document.as_slice().len() as u64;
    }
    total
}

/// The first limit that the documents pass.
pub(crate) fn fault_of(documents: &[Bytes]) -> Option<GroupFault>
    requires { length documents.now < 2 ^ 32 }
    ensures { result ≡ fault_of documents.now }
{
    if documents.is_empty() {
        return Some(GroupFault::NoDocuments);
    }
    if documents.len() > MOST_DOCUMENTS {
        return Some(GroupFault::TooMany(documents.len() as u32));
    }
    if let Some(place) = first_long(documents) {
        return Some(GroupFault::DocumentLong(place));
    }
    let total = total(documents);
    if total > MOST_BYTES {
        Some(GroupFault::TooLong(total))
    } else {
        None
    }
}
