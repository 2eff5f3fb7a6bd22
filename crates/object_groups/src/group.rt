ghost use Rattle.std.specs.Prelude.{◌≡◌, ◌<◌, ◌^◌, length, Some, IfOk, IfErr, OnOk};
ghost use Rattle.object_groups.specs.Groups.{IsGroup, fault_of};

use crate::GroupFault;
use crate::limits::fault_of;
use der_values::{Bytes, Items};
use std::marker::Model;

/// Documents that are kept, covered and handed out together: 1 to 64, each of at most 1,048,576 bytes, and together of at most
/// 4,194,304. Contracts see the list of the documents.
#[derive(Debug, Drop)]
pub struct Group {
    documents: Items<Bytes>,
}

impl Model for Group {
    ghost use Rattle.std.specs.Prelude.{ℕ, List};
    ghost use Rattle.object_groups.specs.Groups.{IsGroup};

    ghost Value = { List (List ℕ) };

    ghost view = { λ g. g.documents };

    ghost invariant = { λ g. IsGroup g.documents };
}

impl Group {
    /// The group of these documents. It copies none. Documents that are no group are handed back with the first limit that they pass.
    pub fn new(documents: Items<Bytes>) -> Result<Group, (Items<Bytes>, GroupFault)>
        requires { length documents < 2 ^ 32 }
        ensures group { IfOk result (λ group. group ≡ documents) }
        ensures within { OnOk result (IsGroup documents) }
        ensures back { IfErr result (λ e. e.0 ≡ documents) }
        ensures fault { IfErr result (λ e. fault_of documents ≡ Some e.1) }
    {
        match fault_of(documents.as_slice()) {
            None => Ok(Group { documents }),
            Some(fault) => Err((documents, fault)),
        }
    }

    /// The documents.
    pub fn documents(&self) -> &[Bytes]
        ensures documents { result.now ≡ self.now }
        ensures within { IsGroup self.now }
    {
        self.documents.as_slice()
    }
}
