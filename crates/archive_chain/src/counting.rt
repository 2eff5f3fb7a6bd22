// How many groups, documents and bytes a deposit has.
ghost use Rattle.std.specs.Prelude.{◌≡◌, ◌≤◌};
ghost use Rattle.object_groups.specs.Groups.{bytes_in};
ghost use Rattle.entry_codec.specs.Spelling.{IsDeposit};
ghost use Rattle.archive_chain.specs.Held.{IsCounted};

use crate::ready::Counts;
use object_groups::Group;

// How many bytes the documents of a group have.
fn bytes_in(group: &Group) -> u64
    ensures value { result ≡ bytes_in group.now }
    ensures few { result ≤ 4194304 }
{
    let mut bytes = 0;
    for document in group.documents() {
        bytes += document.as_slice().len() as u64;
    }
    bytes
}

// The counts of these groups.
pub(crate) fn counts_of(groups: &[Group]) -> Counts
    requires { IsDeposit groups.now }
    ensures counted { IsCounted groups.now result.groups result.documents result.bytes }
    ensures few { result.documents ≤ 4096 }
{
    let mut documents = 0;
    let mut bytes = 0;
    for group in groups {
        documents += group.documents().len() as u64;
        bytes += bytes_in(group);
    }
    Counts {
        groups: groups.len() as u32,
        documents,
        bytes,
    }
}
