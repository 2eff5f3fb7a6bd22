// The archive in memory, and what it tells.
ghost use Rattle.std.specs.Prelude.{◌≡◌, ◌<◌, ◌≤◌, ◌^◌, ◌↔◌, ◌+◌, List, [], ◌∷◌, ◌++◌, length, slice_get, IsTrue, IfOk, Contains, true};
ghost use Rattle.archive_chain.specs.Kept.{groups_of, covers_of, cohorts_in, cohort_last, token_of, ids_in, has_name};
ghost use Rattle.std.specs.List.{AllByRecursion, flat_map};
ghost use Rattle.archive_chain.specs.Rules.{most_groups};
ghost use Rattle.archive_chain.specs.Sequence.{sequence_of};
ghost use Rattle.archive_chain.specs.Held.{StandsFor};
ghost use Rattle.archive_chain.specs.Coverings.{AreCoverings};
ghost use Rattle.evidence_syntax.specs.Stamps.{chains_seen};
ghost use Rattle.evidence_syntax.specs.Text.{chain_text};
ghost use Rattle.archive_chain.specs.InsideTable.{ids_seen};

use crate::coverings::Covering;
use crate::row::{Members, Row};
use crate::sequence::{search, sequence};
use crate::time_stamp::Slot;
use algorithm_policy::Policy;
use der_values::Items;
use evidence_syntax::Chain;
use object_groups::Group;
use std::alloc::{AllocError, Global};
use std::marker::Model;

/// The archive in memory, without documents. Contracts see what it keeps of its history, the leaves of its trees, the policy
/// in force, and the room that it has left.
#[derive(Debug, Drop)]
pub struct Archive {
    // one for each entry; None where it has no tree
    pub(crate) stamps: Vec<Slot>,
    pub(crate) documents: u64,
    pub(crate) bytes: u64,
    pub(crate) pending: u32,
    pub(crate) rows: Vec<Row>,
    // the row of each group's Seal
    pub(crate) firsts: Vec<u32>,
    pub(crate) names: Vec<u32>,
    pub(crate) live: Vec<u32>,
    pub(crate) policy: Policy,
    pub(crate) spare_stamps: usize,
    pub(crate) spare_groups: usize,
}

impl Model for Archive {
    ghost use Rattle.std.specs.Prelude.{length, map};
    ghost use Rattle.archive_chain.specs.Held.{Held};
    ghost use Rattle.archive_chain.specs.Table.{sealed_in, leaves_in, plain_of};
    ghost use Rattle.archive_chain.specs.InsideTable.{IsTable, HasRoom, HasNamesRoom, HasLimits, bones_of};
    ghost use Rattle.archive_chain.specs.InsideSaid.{IsSaidOf};
    ghost use Rattle.std.specs.List.{AllByRecursion};
    ghost use Rattle.archive_chain.specs.InsideListed.{IsListed};
    ghost use Rattle.archive_chain.specs.Kept.{cohort_of};

    ghost Value = { Held };

    ghost view = { λ a. record {
      kept = record {
        entries = length a.stamps.items;
        documents = a.documents;
        bytes = a.bytes;
        sealed = sealed_in a.stamps.items a.rows.items a.firsts.items;
        pending = a.pending;
      };
      trees = map leaves_in a.stamps.items;
      policy = a.policy;
      room = record {
        table = map plain_of a.rows.items;
        firsts = a.firsts.items;
        stamps = a.spare_stamps;
        groups = a.spare_groups;
      };
    } };

    ghost invariant = { λ a. IsTable a.stamps.items a.rows.items a.firsts.items a.pending
        × HasRoom a.stamps.len a.stamps.cap a.rows.len a.rows.cap a.firsts.len a.firsts.cap a.spare_stamps a.spare_groups
        × IsListed (map bones_of a.rows.items) (map cohort_of (sealed_in a.stamps.items a.rows.items a.firsts.items)) a.names.items a.live.items
        × HasNamesRoom a.names.len a.names.cap a.live.len a.live.cap a.spare_stamps
        × AllByRecursion (IsSaidOf a.policy) a.stamps.items
        × HasLimits a.documents a.bytes };
}

impl Archive {
    /// The archive without entries.
    pub fn new(alloc: Global) -> Result<Archive, AllocError>
        ensures { IfOk result (λ archive. StandsFor archive []) }
    {
        Ok(Archive {
            stamps: Vec::new(alloc),
            documents: 0,
            bytes: 0,
            pending: 0,
            rows: Vec::new(alloc),
            firsts: Vec::new(alloc),
            names: Vec::new(alloc),
            live: Vec::new(alloc),
            policy: Policy::empty(alloc)?,
            spare_stamps: 0,
            spare_groups: 0,
        })
    }

    /// How many entries it has.
    pub fn len(&self) -> u64
        ensures { result ≡ self.now.kept.entries }
    {
        self.stamps.len() as u64
    }

    /// How many groups it has, at most 65,536.
    pub fn groups(&self) -> u32
        ensures number { result ≡ groups_of self.now.kept }
        ensures few { result ≤ most_groups }
    {
        self.firsts.len() as u32 + self.pending
    }

    /// How many of them are pending.
    pub fn pending(&self) -> u32
        ensures { result ≡ self.now.kept.pending }
    {
        self.pending
    }

    /// The policy in force.
    pub fn policy(&self) -> &Policy
        ensures { result.now ≡ self.now.policy }
    {
        &self.policy
    }

    /// Whether a group was sealed.
    pub fn covered(&self, id: u32) -> bool
        ensures { IsTrue result ↔ (id < length self.now.kept.sealed) }
    {
        (id as usize) < self.firsts.len()
    }

    /// The names of the cohorts, strictly ascending.
    pub fn cohorts(&self) -> &[u32]
        ensures { result.now ≡ cohorts_in self.now.kept.sealed }
    {
        self.names.as_slice()
    }

    // The groups of a cohort.
    pub(crate) fn members_of(&self, cohort: u32) -> &Members
        requires { has_name (cohorts_in self.now.kept.sealed) cohort ≡ true }
        ensures members { ids_seen result.now ≡ ids_in (cohort ∷ []) 0 self.now.kept.sealed }
        ensures below { AllByRecursion (λ id. id < 65536) (ids_seen result.now) }
    {
        let at = search(self.names.as_slice(), cohort);
        &self.rows[self.live[at] as usize].members
    }

    /// The groups of a cohort, ascending. An error is want of memory.
    pub fn members(&self, alloc: Global, cohort: u32) -> Result<Items<u32>, AllocError>
        requires { Contains (cohorts_in self.now.kept.sealed) cohort }
        ensures { IfOk result (λ ids. ids ≡ ids_in (cohort ∷ []) 0 self.now.kept.sealed) }
    {
        self.members_of(cohort).copied(alloc)
    }

    /// The last token of a cohort's chain. Of a cohort that has no group it is empty.
    pub fn last_token(&self, cohort: u32) -> &[u8]
        ensures { result.now ≡ token_of (cohort_last self.now.kept.sealed cohort) }
    {
        match self.last_stamp(cohort) {
            Some(stamp) => stamp.token.as_slice(),
            None => &[],
        }
    }

    /// The chains of a group that was sealed, if these are its documents (RFC 4998, 5.2): at most 200 time-stamps, and
    /// 14,521,200 bytes as they are written. An error is want of memory.
    pub fn sequence<'a>(
        &'a self,
        alloc: Global,
        id: u32,
        group: &Group,
    ) -> Result<Items<Chain<'a>>, AllocError>
        requires { id < length self.now.kept.sealed }
        ensures chains { IfOk result (λ chains. chains_seen chains
            ≡ sequence_of self.now.trees group.now (covers_of self.now.kept id)) }
        ensures short { IfOk result (λ chains. length (flat_map chain_text (chains_seen chains)) ≤ 14521200) }
    {
        let start = self.firsts[id as usize];
        sequence(
            alloc,
            self.stamps.as_slice(),
            self.rows.as_slice(),
            start,
            id,
            group,
        )
    }
}
