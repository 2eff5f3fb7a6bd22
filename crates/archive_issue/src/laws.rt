//! Laws of the definitions that the crate's contracts cite. The clause of each function is the law.
ghost use Rattle.std.specs.Prelude.{◌≡◌, ◌++◌, ℕ, false, List, None, Some, slice_get};
ghost use Rattle.std.specs.List.{AllByRecursion};
ghost use Rattle.algorithm_policy.specs.Content.{Content};
ghost use Rattle.entry_codec.specs.declared.entry.Entry.{Entry};
ghost use Rattle.civil_moment.specs.declared.moment.Moment.{Moment};
ghost use Rattle.evidence_syntax.specs.Text.{record_spelling};
ghost use Rattle.evidence_verify.specs.declared.verdict.Mode.TheVariants.{Member};
ghost use Rattle.evidence_verify.specs.declared.verdict.Verdict.TheVariants.{Valid};
ghost use Rattle.evidence_verify.specs.Verdict.{Verdicts};
ghost use Rattle.archive_chain.specs.Held.{Held, Agrees};
ghost use Rattle.archive_chain.specs.Kept.{Cover};
ghost use Rattle.archive_chain.specs.Sequence.{sequence_of};
ghost use Rattle.evidence_syntax.specs.Valid.{IsRecord};
ghost use Rattle.archive_chain.specs.Rules.{shape_rule};
ghost use Rattle.archive_chain.specs.History.{leaves_of, state_of, InForce, Legal, LegalButImprint};
ghost use Rattle.archive_issue.specs.Plans.{touches};
ghost use Rattle.archive_issue.specs.Record.{group_record, documents_of, record_after};
ghost use Rattle.archive_issue.specs.Reason.{HasReason};
ghost use Rattle.archive_issue.specs.Law.{HoldsUnlessLapsed};

use algorithm_policy::laws::{no_text_is_two_policies, what_a_policy_keeps};

/// For every legal history and every group that was sealed, the group's record stands for its documents: no verification of
/// it finds another fault than that the moment is early or that a time-stamp lapsed. At every moment that is not before its
/// last time-stamp it holds exactly where no time-stamp's successor came too late.
pub fn a_record_holds_exactly_where_nothing_lapsed()
    ensures { (history : List Entry) (policy : Content) (id : ℕ) (covers : List Cover) (documents : List (List ℕ))
        → Legal history → InForce (state_of history).text policy
        → slice_get (state_of history).kept.sealed id ≡ Some covers → slice_get (state_of history).documents id ≡ Some documents
        → HoldsUnlessLapsed policy documents (sequence_of (state_of history).trees documents covers) }
{
    no_text_is_two_policies();
    what_a_policy_keeps();
}

/// After a legal history the record of a group verifies for its documents at each moment at which nothing stands against it.
pub fn a_record_is_valid_where_nothing_stands_against_it()
    ensures { (held : Held) (history : List Entry) (id : ℕ) (moment : Moment)
        → Legal history → Agrees held history → HasReason held history id moment None
        → Verdicts held.policy (documents_of history id) Member moment (record_spelling (record_after history id)) Valid }
{
    no_text_is_two_policies();
    what_a_policy_keeps();
}

/// For every legal history the record of each group that was sealed has parts that a record may have, and so a spelling.
pub fn a_record_of_a_legal_history_can_be_written()
    ensures { (history : List Entry) (policy : Content) (id : ℕ) (covers : List Cover) (documents : List (List ℕ))
        → Legal history → InForce (state_of history).text policy
        → slice_get (state_of history).kept.sealed id ≡ Some covers → slice_get (state_of history).documents id ≡ Some documents
        → IsRecord (group_record (state_of history).trees documents covers) }
{
    no_text_is_two_policies();
    what_a_policy_keeps();
}

/// The leaves of a planned entry stay the same while no later entry covers what it covers.
pub fn a_later_entry_changes_no_leaves()
    ensures { (history more : List Entry) (e : Entry) → LegalButImprint (history ++ more) → shape_rule (state_of history).kept e ≡ None
        → AllByRecursion (λ f. touches e f ≡ false) more
        → leaves_of (state_of (history ++ more)).kept (state_of (history ++ more)).trees (state_of (history ++ more)).documents e
        ≡ leaves_of (state_of history).kept (state_of history).trees (state_of history).documents e }
{}
