//! Laws of the definitions that the crate's contracts cite. A function's clause is the law; its body is empty, or reads what
//! decides it.

ghost use Rattle.std.specs.Prelude.{◌≡◌, ℕ, List, None};
ghost use Rattle.evidence_verify.specs.declared.verdict.Verdict.{Verdict};
ghost use Rattle.archive_chain.specs.declared.refusal.Refusal.{Refusal};
ghost use Rattle.session_text.specs.VerifyInput.{Verification, IsVerification, verify_first_fault};
ghost use Rattle.session_text.specs.Verdicts.{IsVerdictLine};
ghost use Rattle.session_text.specs.RefusalTexts.{IsRefusalText};

use crate::text::Text;
use crate::verify_input::mode;

/// No bytes are two verifications.
pub fn no_bytes_are_two_verifications()
    ensures { (bytes : List ℕ) (v w : Verification) → IsVerification bytes v → IsVerification bytes w → v ≡ w }
{}

/// What is a verification has no fault.
pub fn a_verification_has_no_fault()
    ensures { (bytes : List ℕ) (v : Verification) → IsVerification bytes v → verify_first_fault bytes ≡ None }
{}

/// What has no fault is a verification. The reading of its moment decides it.
pub fn what_has_no_fault_is_a_verification(bytes: &[u8])
    ensures { verify_first_fault bytes.now ≡ None
        → (v : Verification) × IsVerification bytes.now v }
{
    let mut text = Text::new(bytes);
    let Ok(()) = text.keyword(b"verify", b' ') else {
        return;
    };
    let Ok(_) = mode(&mut text, b' ') else {
        return;
    };
    let Ok(_) = text.moment(b'\n') else {
        return;
    };
}

/// A verdict has one line.
pub fn a_verdict_has_one_line()
    ensures { (verdict : Verdict) (a b : List ℕ) → IsVerdictLine a verdict → IsVerdictLine b verdict → a ≡ b }
{}

/// A refusal has one text.
pub fn a_refusal_has_one_text()
    ensures { (refusal : Refusal) (a b : List ℕ) → IsRefusalText refusal a → IsRefusalText refusal b → a ≡ b }
{}
