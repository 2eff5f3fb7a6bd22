// Laws over the definitions alone. The clause of each function is the law.
ghost use Rattle.std.specs.Prelude.{◌≡◌, ◌⊎◌, ℕ, List, Some, IsTrue};
ghost use Rattle.std.specs.declared.option.Option.{Option};
ghost use Rattle.ev_world.specs.Causes.{Rose};
ghost use Rattle.civil_moment.specs.declared.moment.Moment.{Moment};
ghost use Rattle.trial_authority.specs.Key.{Trusts};
ghost use Rattle.entry_codec.specs.declared.entry.Entry.{Entry};
ghost use Rattle.archive_store.specs.declared.fault.StoreFault.{StoreFault};
ghost use Rattle.archive_store.specs.Images.{ReadsHistory};
ghost use Rattle.evidence_tool.specs.Requests.{Asked};
ghost use Rattle.evidence_tool.specs.JournalLines.{IsJournalLine};
ghost use Rattle.evidence_tool.specs.Served.{ends_by, IsInput, IsServed};
ghost use Rattle.evidence_tool.specs.Trial.{trial_seed, trial_policy};

use ev_world::{Disk, Sink};

/// Requests over a journal of a legal history are served whole, unless a device fails or memory is wanting.
pub fn what_is_well_formed_is_served<K: Sink, J: Disk>()
    ensures { (rest : Option (List ℕ)) (source_before source_after status : ℕ) (sink sink' : K) (old new : J)
        (bytes : List ℕ) (requests : List Asked) (history : List Entry)
        → IsServed (Some bytes) rest source_before source_after
        (ends_by K.taken K.faults J.tells J.reads J.images J.clock J.since J.faults sink sink' old new) status
        → IsInput bytes requests → IsTrue J.tells → ReadsHistory (J.reads old) history
        → ¬ Rose source_before source_after → ¬ Rose (K.faults sink) (K.faults sink') → ¬ Rose (J.faults old) (J.faults new)
        → (status ≡ 0) ⊎ (status ≡ 9) }
{}

/// A fault of a journal has one line.
pub fn a_journal_fault_has_one_line()
    ensures { (fault : StoreFault) (a b : List ℕ) → IsJournalLine fault a → IsJournalLine fault b → a ≡ b }
{
    session_text::laws::a_refusal_has_one_text();
}

/// The policy that `trial` writes trusts the key of the trial authority, and names it by its identifier.
pub fn what_trial_writes_trusts_the_trial_authority()
    ensures { (hash_end key_end : Moment) → Trusts (trial_policy hash_end key_end) trial_seed }
{}
