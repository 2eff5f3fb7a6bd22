// The rules that are tried before the token: the counts, the hashes and the cohorts decide them.
ghost use Rattle.std.specs.Prelude.{◌≡◌, ◌≤◌, ◌<◌, ◌^◌, not, find, length, sum_by};
ghost use Rattle.std.specs.Option.{option_or};
ghost use Rattle.object_groups.specs.Groups.{bytes_in};
ghost use Rattle.entry_codec.specs.Spelling.{IsEntry, IsDeposit};
ghost use Rattle.archive_chain.specs.Kept.{cohort_last};
ghost use Rattle.archive_chain.specs.Rules.{past_limits, limit_rule, count_rule, is_live, live_rule, chain_has, hash_rule, first_full, full_rule, shape_rule};

use crate::archive::Archive;
use crate::counting::counts_of;
use crate::refusal::{Full, Refusal};
use entry_codec::Entry;
use hash_kit::HashAlg;
use object_groups::Group;

/// The most groups of an archive.
const MOST_GROUPS: u64 = 65_536;

/// The most documents of an archive.
const MOST_DOCUMENTS: u64 = 1_048_576;

/// The most bytes of the documents of an archive.
const MOST_BYTES: u64 = 268_435_456;

/// The most groups of a Seal.
const MOST_SEALED: u32 = 4096;

impl Archive {
    /// The first rule before that of the token that the entry breaks, if it breaks one. It takes no memory.
    pub fn shape(&self, entry: &Entry) -> Option<Refusal>
        requires { IsEntry entry.now }
        ensures { result ≡ shape_rule self.now.kept entry.now }
    {
        match entry {
            Entry::Deposit { groups } => self.limit_rule(groups.as_slice()),
            Entry::Seal {
                hash: _,
                count,
                token: _,
            } => self.count_rule(*count),
            Entry::RenewStamps {
                hash,
                cohorts,
                token: _,
            } => self.stamps_rule(*hash, cohorts.as_slice()),
            Entry::RenewTrees {
                hash: _,
                cohorts,
                token: _,
            } => self.trees_rule(cohorts.as_slice()),
            Entry::SetPolicy { text: _ } => None,
        }
    }

    // The limit that these groups pass.
    fn limit_rule(&self, groups: &[Group]) -> Option<Refusal>
        requires { IsDeposit groups.now }
        ensures { result ≡ limit_rule self.now.kept groups.now }
    {
        let counts = counts_of(groups);
        self.past_limits(u64::from(counts.groups), counts.documents, counts.bytes)
    }

    // The limit that so many groups, documents and bytes pass with those that are there.
    pub(crate) fn past_limits(&self, groups: u64, documents: u64, bytes: u64) -> Option<Refusal>
        requires groups { groups < 2 ^ 32 }
        requires documents { documents < 2 ^ 32 }
        requires bytes { bytes < 2 ^ 32 }
        ensures { result ≡ past_limits self.now.kept groups documents bytes }
    {
        let groups = u64::from(self.groups()) + groups;
        let documents = self.documents + documents;
        let bytes = self.bytes + bytes;
        if groups > MOST_GROUPS {
            Some(Refusal::Limit(Full::Groups(groups)))
        } else if documents > MOST_DOCUMENTS {
            Some(Refusal::Limit(Full::Documents(documents)))
        } else if bytes > MOST_BYTES {
            Some(Refusal::Limit(Full::Bytes(bytes)))
        } else {
            None
        }
    }

    // That a Seal covers pending groups, and not too many.
    fn count_rule(&self, count: u32) -> Option<Refusal>
        ensures { result ≡ count_rule self.now.kept count }
    {
        let pending = self.pending();
        if count > 0 && count <= pending.min(MOST_SEALED) {
            None
        } else {
            Some(Refusal::Count { count, pending })
        }
    }

    // The rules of a RenewStamps.
    fn stamps_rule(&self, alg: HashAlg, cohorts: &[u32]) -> Option<Refusal>
        ensures { result ≡ option_or (live_rule self.now.kept cohorts.now)
            (option_or (hash_rule self.now.kept alg cohorts.now) (full_rule self.now.kept cohorts.now)) }
    {
        if let Some(refusal) = self.live_rule(cohorts) {
            return Some(refusal);
        }
        if let Some(refusal) = self.hash_rule(alg, cohorts) {
            return Some(refusal);
        }
        self.full_rule(cohorts)
    }

    // The rules of a RenewTrees.
    fn trees_rule(&self, cohorts: &[u32]) -> Option<Refusal>
        ensures { result ≡ option_or (live_rule self.now.kept cohorts.now) (full_rule self.now.kept cohorts.now) }
    {
        if let Some(refusal) = self.live_rule(cohorts) {
            return Some(refusal);
        }
        self.full_rule(cohorts)
    }

    // The first of these cohorts that has no group.
    fn live_rule(&self, cohorts: &[u32]) -> Option<Refusal>
        ensures { result ≡ live_rule self.now.kept cohorts.now }
    {
        match self.first_dead(cohorts) {
            Some(cohort) => Some(Refusal::NotLive { cohort }),
            None => None,
        }
    }

    fn first_dead(&self, cohorts: &[u32]) -> Option<u32>
        ensures { result ≡ find (λ c. not (is_live self.now.kept c)) cohorts.now }
    {
        cohorts
            .iter()
            .copied()
            .find(|cohort| !self.is_live(*cohort))
    }

    // The first of these cohorts whose chain has another hash.
    fn hash_rule(&self, alg: HashAlg, cohorts: &[u32]) -> Option<Refusal>
        ensures { result ≡ hash_rule self.now.kept alg cohorts.now }
    {
        match self.first_other(alg, cohorts) {
            Some(cohort) => Some(Refusal::OtherHash { cohort }),
            None => None,
        }
    }

    fn first_other(&self, alg: HashAlg, cohorts: &[u32]) -> Option<u32>
        ensures { result ≡ find (λ c. not (chain_has alg (cohort_last self.now.kept.sealed c))) cohorts.now }
    {
        cohorts
            .iter()
            .copied()
            .find(|cohort| !self.has_hash(alg, *cohort))
    }

    // The first group of these cohorts that has as many time-stamps as a group may have.
    fn full_rule(&self, cohorts: &[u32]) -> Option<Refusal>
        ensures { result ≡ full_rule self.now.kept cohorts.now }
    {
        match self.first_full(cohorts) {
            Some(id) => Some(Refusal::ChainFull { id }),
            None => None,
        }
    }
}
