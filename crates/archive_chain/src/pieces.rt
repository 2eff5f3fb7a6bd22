// What an entry that keeps all rules adds to an archive, or the rule of its token or of its policy that it breaks.
ghost use Rattle.std.specs.Prelude.{◌≡◌, ◌<◌, ◌≤◌, ◌^◌, [], length, None, IfOk, IfErr};
ghost use Rattle.entry_codec.specs.Spelling.{IsEntry, IsDeposit, AreCohorts};
ghost use Rattle.entry_codec.specs.declared.entry.Entry.TheVariants.{Deposit, Seal, RenewStamps, RenewTrees, SetPolicy};
ghost use Rattle.archive_chain.specs.Kept.{count_in};
ghost use Rattle.archive_chain.specs.Rules.{LaterBreaks, limit_rule, count_rule, shape_rule};
ghost use Rattle.archive_chain.specs.Held.{leaf_count};
ghost use Rattle.archive_chain.specs.InsideToken.{Refuses};
ghost use Rattle.archive_chain.specs.InsideMade.{IsMade, sealed_by_entry};

use crate::archive::Archive;
use crate::counting::counts_of;
use crate::joining::{Joined, Register};
use crate::peak::Peak;
use crate::policy_rules::policy_rules;
use crate::ready::Piece;
use crate::refusal::Refusal;
use crate::row::Members;
use crate::stamped::stamped;
use entry_codec::Entry;
use hash_kit::{HashAlg, HashValue};
use object_groups::Group;
use std::alloc::Global;

impl Archive {
    // What an entry adds that breaks no rule before that of its token or its policy.
    pub(crate) fn piece(
        &self,
        alloc: Global,
        entry: &Entry,
        leaves: &[HashValue],
    ) -> Result<Piece, Refusal>
        requires few { self.now.kept.entries < 2 ^ 32 }
        requires spelled { IsEntry entry.now }
        requires shape { shape_rule self.now.kept entry.now ≡ None }
        requires leaves { length leaves.now ≡ leaf_count self.now.kept entry.now }
        requires groups { sealed_by_entry entry.now ≤ self.now.room.groups }
        ensures made { IfOk result (IsMade self.now entry.now leaves.now) }
        ensures breaks { IfErr result (Refuses (LaterBreaks self.now.kept self.now.policy entry.now leaves.now)) }
    {
        match entry {
            Entry::Deposit { groups } => Ok(self.deposit(groups.as_slice())),
            Entry::Seal { hash, count, token } => {
                self.seal(alloc, *hash, *count, token.as_slice(), leaves)
            }
            Entry::RenewStamps {
                hash,
                cohorts,
                token,
            } => self.renew_stamps(alloc, *hash, cohorts.as_slice(), token.as_slice(), leaves),
            Entry::RenewTrees {
                hash,
                cohorts,
                token,
            } => self.renew_trees(alloc, *hash, cohorts.as_slice(), token.as_slice(), leaves),
            Entry::SetPolicy { text } => self.govern(alloc, text.as_slice()),
        }
    }

    // What a Deposit adds.
    fn deposit(&self, groups: &[Group]) -> Piece
        requires spelled { IsDeposit groups.now }
        requires shape { limit_rule self.now.kept groups.now ≡ None }
        ensures { IsMade self.now (Deposit groups.now) [] result }
    {
        Piece::Counted(counts_of(groups))
    }

    // What a SetPolicy adds.
    fn govern(&self, alloc: Global, text: &[u8]) -> Result<Piece, Refusal>
        ensures made { IfOk result (IsMade self.now (SetPolicy text.now) []) }
        ensures breaks { IfErr result (Refuses (LaterBreaks self.now.kept self.now.policy (SetPolicy text.now) [])) }
    {
        let policy = policy_rules(alloc, self.policy(), text)?;
        Ok(Piece::Governed(policy))
    }

    // What a Seal adds.
    fn seal(
        &self,
        alloc: Global,
        alg: HashAlg,
        count: u32,
        token: &[u8],
        leaves: &[HashValue],
    ) -> Result<Piece, Refusal>
        requires few { self.now.kept.entries < 2 ^ 32 }
        requires shape { count_rule self.now.kept count ≡ None }
        requires leaves { length leaves.now ≡ count }
        requires groups { count ≤ self.now.room.groups }
        ensures made { IfOk result (IsMade self.now (Seal alg count token.now) leaves.now) }
        ensures breaks { IfErr result (Refuses (LaterBreaks self.now.kept self.now.policy (Seal alg count token.now) leaves.now)) }
    {
        let stamp = stamped(alloc, self.policy(), alg, None, token, leaves)?;
        let first = self.groups() - self.pending();
        let peak = Peak {
            most: 1,
            least: first,
        };
        let row = self.next_row(alloc, Members::Run { first, count }, peak);
        Ok(Piece::Sealed(stamp, row, count))
    }

    // What a RenewStamps adds.
    fn renew_stamps(
        &self,
        alloc: Global,
        alg: HashAlg,
        cohorts: &[u32],
        token: &[u8],
        leaves: &[HashValue],
    ) -> Result<Piece, Refusal>
        requires few { self.now.kept.entries < 2 ^ 32 }
        requires spelled { AreCohorts cohorts.now }
        requires shape { shape_rule self.now.kept (RenewStamps alg cohorts.now token.now) ≡ None }
        requires leaves { length leaves.now ≡ length cohorts.now }
        ensures made { IfOk result (IsMade self.now (RenewStamps alg cohorts.now token.now) leaves.now) }
        ensures breaks { IfErr result (Refuses (LaterBreaks self.now.kept self.now.policy (RenewStamps alg cohorts.now token.now) leaves.now)) }
    {
        let latest = self.latest(cohorts);
        let stamp = stamped(alloc, self.policy(), alg, latest, token, leaves)?;
        let longer = self.longer(alloc, cohorts)?;
        Ok(Piece::Stamped(stamp, longer))
    }

    // What a RenewTrees adds.
    fn renew_trees(
        &self,
        alloc: Global,
        alg: HashAlg,
        cohorts: &[u32],
        token: &[u8],
        leaves: &[HashValue],
    ) -> Result<Piece, Refusal>
        requires few { self.now.kept.entries < 2 ^ 32 }
        requires spelled { AreCohorts cohorts.now }
        requires shape { shape_rule self.now.kept (RenewTrees alg cohorts.now token.now) ≡ None }
        requires leaves { length leaves.now ≡ count_in cohorts.now self.now.kept.sealed }
        ensures made { IfOk result (IsMade self.now (RenewTrees alg cohorts.now token.now) leaves.now) }
        ensures breaks { IfErr result (Refuses (LaterBreaks self.now.kept self.now.policy (RenewTrees alg cohorts.now token.now) leaves.now)) }
    {
        let latest = self.latest(cohorts);
        let stamp = stamped(alloc, self.policy(), alg, latest, token, leaves)?;
        let Joined {
            row,
            places,
            register,
        } = self.joined(alloc, cohorts)?;
        let Register { names, live } = register;
        Ok(Piece::Renewed(stamp, row, places, names, live))
    }
}
