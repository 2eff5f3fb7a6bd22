// An entry that may be added, or the first rule that it breaks.
ghost use Rattle.std.specs.Prelude.{◌≡◌, ◌⊎◌, ◌<◌, ◌^◌, length, None, IfOk, IfErr, OnOk};
ghost use Rattle.entry_codec.specs.Spelling.{IsEntry};
ghost use Rattle.archive_chain.specs.Rules.{shape_rule, Keeps, Breaks};
ghost use Rattle.archive_chain.specs.Held.{leaf_count, IsAsBefore};
ghost use Rattle.archive_chain.specs.InsideMade.{sealed_by_entry};
ghost use Rattle.archive_chain.specs.declared.refusal.Refusal.TheVariants.{Memory};

use crate::archive::Archive;
use crate::ready::Ready;
use crate::refusal::Refusal;
use entry_codec::Entry;
use hash_kit::HashValue;
use std::alloc::Global;
use std::snapshot::Snapshot;

// How many groups an entry seals.
fn sealed_groups(entry: &Entry) -> u32
    ensures { result ≡ sealed_by_entry entry.now }
{
    match entry {
        Entry::Seal {
            hash: _,
            count,
            token: _,
        } => *count,
        _ => 0,
    }
}

impl Archive {
    /// Makes room for an entry that breaks no rule, where its tree has these leaves; else the first rule that it breaks.
    /// But for its room the archive stays as it is.
    pub fn reserve(
        &mut self,
        alloc: Global,
        entry: &Entry,
        leaves: &[HashValue],
    ) -> Result<Ready, Refusal>
        requires few { self.old.kept.entries < 2 ^ 32 }
        requires spelled { IsEntry entry.now }
        requires leaves { shape_rule self.old.kept entry.now ≡ None → length leaves.now ≡ leaf_count self.old.kept entry.now }

        ensures ready { IfOk result (λ ready. ready ≡ record { entry = entry.now; leaves = leaves.now; archive = self.new }) }
        ensures keeps { OnOk result (Keeps self.old.kept self.old.policy entry.now leaves.now) }
        ensures breaks { IfErr result (λ refusal. (refusal ≡ Memory) ⊎ Breaks self.old.kept self.old.policy entry.now leaves.now refusal) }
        ensures same { IsAsBefore self.old self.new }
    {
        if let Some(refusal) = self.shape(entry) {
            return Err(refusal);
        }
        self.make_room(sealed_groups(entry))?;
        let piece = self.piece(alloc, entry, leaves)?;
        Ok(Ready {
            piece,
            entry: Snapshot::of(entry),
            archive: Snapshot::of(self),
        })
    }
}
