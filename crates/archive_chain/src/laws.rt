//! Laws of the definitions that the crate's contracts cite. The clause of each function is the law.
ghost use Rattle.std.specs.Prelude.{◌≡◌, ◌↔◌, ℕ, List, [], ◌∷◌, ◌++◌};
ghost use Rattle.algorithm_policy.specs.Content.{Content};
ghost use Rattle.entry_codec.specs.declared.entry.Entry.{Entry};
ghost use Rattle.archive_chain.specs.declared.refusal.Refusal.{Refusal};
ghost use Rattle.archive_chain.specs.Kept.{Kept};
ghost use Rattle.archive_chain.specs.Rules.{Keeps, Breaks};
ghost use Rattle.entry_codec.specs.Spelling.{IsEntry};
ghost use Rattle.archive_chain.specs.History.{state_of, leaves_of, IsLegal, Legal, IsLegalButImprint, LegalButImprint};
ghost use Rattle.archive_chain.specs.Held.{Held, Agrees, StandsFor};

use algorithm_policy::laws::{a_text_without_a_fault_is_a_policy, no_text_is_two_policies};

/// An entry breaks one rule first.
pub fn an_entry_breaks_one_rule_first()
    ensures { (k : Kept) (policy : Content) (e : Entry) (leaves : List (List ℕ)) (a b : Refusal)
        → Breaks k policy e leaves a → Breaks k policy e leaves b → a ≡ b }
{
    no_text_is_two_policies();
    a_text_without_a_fault_is_a_policy();
}

/// An entry that keeps all rules breaks none.
pub fn an_entry_that_keeps_all_rules_breaks_none()
    ensures { (k : Kept) (policy : Content) (e : Entry) (leaves : List (List ℕ)) (refusal : Refusal)
        → Keeps k policy e leaves → Breaks k policy e leaves refusal → ⊥ }
{
    no_text_is_two_policies();
    a_text_without_a_fault_is_a_policy();
}

/// A history with one entry more is legal exactly where it is legal without it and the entry has a spelling and breaks no
/// rule after it; so too where the imprints aren't asked.
pub fn a_legal_history_goes_on_with_what_is_legal_after_it()
    ensures legal { (history : List Entry) (e : Entry)
        → Legal (history ++ e ∷ []) ↔ (Legal history × IsEntry e × IsLegal (state_of history) e) }
    ensures but_imprint { (history : List Entry) (e : Entry)
        → LegalButImprint (history ++ e ∷ []) ↔ (LegalButImprint history × IsEntry e × IsLegalButImprint (state_of history) e) }
{}

/// In a legal history each entry breaks no rule, and so none but that of the imprint.
pub fn a_legal_history_is_legal_but_for_imprints()
    ensures { (history : List Entry) → Legal history → LegalButImprint history }
{}

/// What breaks no rule of an archive is legal after the history that it stands for, if the leaves are the history's; where
/// it only agrees with the history, it is so but for the imprint.
pub fn what_an_archive_takes_is_legal()
    ensures legal { (held : Held) (history : List Entry) (e : Entry) (leaves : List (List ℕ)) → StandsFor held history
        → leaves ≡ leaves_of held.kept held.trees (state_of history).documents e
        → Keeps held.kept held.policy e leaves → IsLegal (state_of history) e }
    ensures but_imprint { (held : Held) (history : List Entry) (e : Entry) (leaves : List (List ℕ)) → Agrees held history
        → Keeps held.kept held.policy e leaves → IsLegalButImprint (state_of history) e }
{}
