// A deposit by its numbers alone.
ghost use Rattle.std.specs.Prelude.{◌≡◌, ◌⊎◌, ◌<◌, ◌^◌, ℕ, List, [], OnOk, OnErr, IfErr};
ghost use Rattle.entry_codec.specs.declared.entry.Entry.TheVariants.{Deposit};
ghost use Rattle.entry_codec.specs.Spelling.{IsDeposit};
ghost use Rattle.archive_chain.specs.Rules.{Keeps, Breaks};
ghost use Rattle.archive_chain.specs.Held.{IsCounted, IsAsBefore, Takes};
ghost use Rattle.archive_chain.specs.declared.refusal.Refusal.TheVariants.{Memory};

use crate::archive::Archive;
use crate::ready::Counts;
use crate::refusal::Refusal;

impl Archive {
    /// Adds a Deposit that breaks no rule, by the numbers of its groups, its documents and their bytes; else the first
    /// rule that it breaks, and nothing changes. The clauses hold of each deposit that has these numbers.
    pub fn take_deposit(&mut self, groups: u32, documents: u64, bytes: u64) -> Result<(), Refusal>
        requires few { self.old.kept.entries < 2 ^ 32 }
        requires deposit { (deposit : List (List (List ℕ))) × IsDeposit deposit × IsCounted deposit groups documents bytes }

        ensures takes { (deposit : List (List (List ℕ))) → IsCounted deposit groups documents bytes
            → OnOk result (Takes self.old (Deposit deposit) [] self.new) }
        ensures keeps { (deposit : List (List (List ℕ))) → IsCounted deposit groups documents bytes
            → OnOk result (Keeps self.old.kept self.old.policy (Deposit deposit) []) }
        ensures breaks { (deposit : List (List (List ℕ))) → IsCounted deposit groups documents bytes
            → IfErr result (λ refusal. (refusal ≡ Memory) ⊎ Breaks self.old.kept self.old.policy (Deposit deposit) [] refusal) }
        ensures same { OnErr result (IsAsBefore self.old self.new) }
    {
        if let Some(refusal) = self.past_limits(u64::from(groups), documents, bytes) {
            return Err(refusal);
        }
        self.make_room(0)?;
        self.add_deposit(Counts {
            groups,
            documents,
            bytes,
        });
        Ok(())
    }
}
