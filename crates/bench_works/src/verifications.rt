ghost use Rattle.std.specs.Prelude.{◌≡◌, ◌<◌, ◌≤◌, length, IfOk};
ghost use Rattle.evidence_verify.specs.declared.verdict.Verdict.{Verdict};
ghost use Rattle.lms_verify.specs.Hss.{hss_verifies};
ghost use Rattle.session_text.specs.VerifyInput.{verification_seen};
ghost use Rattle.bench_works.specs.Repeated.{yes_among, is_valid, IsVerdictOn};

use crate::token::TokenSignature;
use algorithm_policy::Policy;
use evidence_verify::{Verdict, verify};
use lms_verify::hss_verify;
use session_text::VerifyInput;
use std::alloc::{AllocError, Global};

/// What repeated verifications came to.
#[derive(Clone, Copy, Debug)]
pub struct Judged {
    /// The verdict, which is the same each time.
    pub verdict: Verdict,
    /// How many of the verifications answered that the record is valid.
    pub valid: u32,
}

/// Verifies the record of an input so many times.
pub fn judge_repeatedly(
    alloc: Global,
    input: &VerifyInput<'_>,
    policy: &Policy,
    count: u32,
) -> Result<Judged, AllocError>
    requires some { 1 ≤ length input.now.documents }
    requires few { length input.now.documents ≤ 64 }
    requires once { 0 < count }
    ensures verdict { IfOk result (λ judged. IsVerdictOn (verification_seen input.now) policy.now judged.verdict) }
    ensures valid { IfOk result (λ judged. judged.valid ≡ yes_among count (is_valid judged.verdict)) }
{
    let verdict = judge(alloc, input, policy)?;
    let mut valid = u32::from(is_valid(&verdict));
    for done in 1..count {
        if is_valid(&judge(alloc, input, policy)?) {
            valid += 1;
        }
    }
    Ok(Judged { verdict, valid })
}

fn judge(alloc: Global, input: &VerifyInput<'_>, policy: &Policy) -> Result<Verdict, AllocError>
    requires some { 1 ≤ length input.now.documents }
    requires few { length input.now.documents ≤ 64 }
    ensures verdict { IfOk result (IsVerdictOn (verification_seen input.now) policy.now) }
    ensures only { (verdict : Verdict) → IsVerdictOn (verification_seen input.now) policy.now verdict
        → IfOk result (λ answered. answered ≡ verdict) }
{
    verify(
        alloc,
        input.evidence,
        input.documents.as_slice(),
        input.mode,
        policy,
        input.moment,
    )
}

fn is_valid(verdict: &Verdict) -> bool
    ensures { result ≡ is_valid verdict.now }
{
    matches!(verdict, Verdict::Valid)
}

/// How many of so many checks of a signature found that it verifies.
pub fn check_repeatedly(signed: &TokenSignature<'_>, count: u32) -> u32
    ensures { result ≡ yes_among count (hss_verifies signed.now.key signed.now.message.items signed.now.signature.now) }
{
    let mut verified = 0;
    for done in 0..count {
        if hss_verify(&signed.key, signed.message.as_slice(), signed.signature) {
            verified += 1;
        }
    }
    verified
}
