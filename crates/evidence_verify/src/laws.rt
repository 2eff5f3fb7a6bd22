//! Laws of the definitions that the crate's contracts cite. Each function has an empty body: its clause is the law.

ghost use Rattle.std.specs.Prelude.{◌≡◌, ◌↔◌, ◌<◌, ℕ, List, slice_index, IsTrue, Some, None};
ghost use Rattle.civil_moment.specs.declared.moment.Moment.{Moment};
ghost use Rattle.algorithm_policy.specs.Content.{Content};
ghost use Rattle.evidence_syntax.specs.Record.{EvidenceRecord, Spells};
ghost use Rattle.evidence_verify.specs.declared.verdict.Mode.{Mode};
ghost use Rattle.evidence_verify.specs.declared.verdict.Mode.TheVariants.{Member, Whole};
ghost use Rattle.evidence_verify.specs.declared.verdict.Lapse.{Lapse};
ghost use Rattle.evidence_verify.specs.declared.verdict.Verdict.{Verdict};
ghost use Rattle.evidence_verify.specs.declared.verdict.Verdict.TheVariants.{Valid};
ghost use Rattle.evidence_verify.specs.Stamps.{Place, Checked, AreSound};
ghost use Rattle.evidence_verify.specs.Covers.{Covers, covers};
ghost use Rattle.evidence_verify.specs.Marks.{Mark, AreInTime, IsFirstLapse, first_lapse};
ghost use Rattle.evidence_verify.specs.Verdict.{Verdicts};
ghost use Rattle.evidence_verify.specs.Holds.{Holds, HoldsWhole};

/// Every string of bytes has a verdict.
pub fn every_string_of_bytes_has_a_verdict()
    ensures { (policy : Content) (documents : List (List ℕ)) (mode : Mode) (moment : Moment) (bytes : List ℕ)
        → ((i : ℕ) → slice_index bytes i < 256) → (verdict : Verdict) × Verdicts policy documents mode moment bytes verdict }
{}

/// Bytes have one verdict.
pub fn bytes_have_one_verdict()
    ensures { (policy : Content) (documents : List (List ℕ)) (mode : Mode) (moment : Moment) (bytes : List ℕ) (v w : Verdict)
        → Verdicts policy documents mode moment bytes v → Verdicts policy documents mode moment bytes w → v ≡ w }
{}

/// The test of covering is true exactly where the value is covered.
pub fn a_value_is_covered_exactly_by_the_test()
    ensures { (stamp : Checked) (value : List ℕ) → IsTrue (covers stamp value) ↔ Covers stamp value }
{}

/// For members the verdict is that the record is valid exactly where it holds.
pub fn a_record_is_valid_exactly_where_it_holds()
    ensures { (policy : Content) (documents : List (List ℕ)) (moment : Moment) (bytes : List ℕ) (r : EvidenceRecord)
        → Spells bytes r → Verdicts policy documents Member moment bytes Valid ↔ Holds policy documents moment r.chains }
{}

/// For the whole the verdict is that the record is valid exactly where it holds, and its first lists have no further values.
pub fn a_record_is_valid_for_the_whole_exactly_where_it_holds()
    ensures { (policy : Content) (documents : List (List ℕ)) (moment : Moment) (bytes : List ℕ) (r : EvidenceRecord)
        → Spells bytes r → Verdicts policy documents Whole moment bytes Valid ↔ HoldsWhole policy documents moment r.chains }
{}

/// The tokens in these places say one thing.
pub fn tokens_say_one_thing()
    ensures { (policy : Content) (places : List Place) (a b : List Checked)
        → AreSound policy places a → AreSound policy places b → a ≡ b }
{}

/// There is no lapse exactly where each successor came in time.
pub fn nothing_lapses_exactly_in_time()
    ensures { (policy : Content) (moment : Moment) (marks : List Mark)
        → (first_lapse policy moment marks ≡ None) ↔ AreInTime policy moment marks }
{}

/// The lapse is that of the first whose successor did not come in time.
pub fn the_lapse_is_that_of_the_first()
    ensures { (policy : Content) (moment : Moment) (marks : List Mark) (lapse : Lapse)
        → (first_lapse policy moment marks ≡ Some lapse) ↔ IsFirstLapse policy moment marks lapse }
{}
