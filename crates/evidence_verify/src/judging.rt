ghost use Rattle.std.specs.Prelude.{◌≡◌, ◌≤◌, [], length, map, IfOk};
ghost use Rattle.evidence_syntax.specs.Stamps.{chains_seen};
ghost use Rattle.evidence_verify.specs.declared.verdict.Verdict.{Verdict};
ghost use Rattle.evidence_verify.specs.Stamps.{places_of};
ghost use Rattle.evidence_verify.specs.Verdict.{verdict_of, Judges, Verdicts};
ghost use Rattle.evidence_verify.specs.Inside.{checked_seen, places_seen, GoOn};
ghost use Rattle.evidence_verify.specs.InsideChains.{WereRead};

use crate::covering::cover_fault;
use crate::hashes::mixed_fault;
use crate::lapse::first_lapse;
use crate::mark::marks;
use crate::order::{early_fault, order_fault};
use crate::places::places;
use crate::stamps::{Checked, StampFault, sound_stamps};
use crate::values::owed_by;
use crate::verdict::{Mode, Verdict};
use crate::whole::whole_fault;
use algorithm_policy::Policy;
use civil_moment::Moment;
use der_values::Bytes;
use evidence_syntax::{Chain, SyntaxFault, read_record};
use std::alloc::{AllocError, Global};

// What is asked of a record.
#[derive(Drop)]
struct Question<'d, 'p> {
    documents: &'d [Bytes],
    mode: Mode,
    policy: &'p Policy,
    moment: Moment,
}

/// The verdict on the bytes of an evidence record (RFC 4998, 4.3 and 5.3): the first fault in the order of the verdicts,
/// or that the record holds, for 1 to 64 documents, under a policy and at a moment. An error is want of memory.
pub fn verify(
    alloc: Global,
    bytes: &[u8],
    documents: &[Bytes],
    mode: Mode,
    policy: &Policy,
    moment: Moment,
) -> Result<Verdict, AllocError>
    requires some { 1 ≤ length documents.now }
    requires few { length documents.now ≤ 64 }

    // What is answered is the verdict, and no other is.
    ensures verdict { IfOk result (Verdicts policy.now documents.now mode moment bytes.now) }
    ensures only { (verdict : Verdict) → Verdicts policy.now documents.now mode moment bytes.now verdict
        → IfOk result (λ answered. answered ≡ verdict) }
{
    let question = Question {
        documents,
        mode,
        policy,
        moment,
    };
    judge_bytes(alloc, bytes, &question)
}

fn judge_bytes(
    alloc: Global,
    bytes: &[u8],
    question: &Question<'_, '_>,
) -> Result<Verdict, AllocError>
    requires { length question.now.documents.now ≤ 64 }
    ensures { IfOk result (Verdicts question.now.policy.now question.now.documents.now
        question.now.mode question.now.moment bytes.now) }
{
    match read_record(alloc, bytes) {
        Ok(evidence) => {
            let chains = evidence.chains.as_slice();
            judge_chains(alloc, chains, question)
        }
        Err(SyntaxFault::At { place, kind }) => Ok(Verdict::Syntax { place, kind }),
        Err(SyntaxFault::Memory) => Err(AllocError),
    }
}

fn judge_chains(
    alloc: Global,
    chains: &[Chain<'_>],
    question: &Question<'_, '_>,
) -> Result<Verdict, AllocError>
    requires few { length question.now.documents.now ≤ 64 }
    requires read { WereRead (chains_seen chains.now) }
    ensures { IfOk result (Judges question.now.policy.now question.now.documents.now
        question.now.mode question.now.moment (places_of (chains_seen chains.now))) }
{
    let places = places(alloc, chains)?;
    match sound_stamps(alloc, places.as_slice(), question.policy) {
        Ok(stamps) => judge_stamps(alloc, stamps.as_slice(), question),
        Err(StampFault::Bad(verdict)) => Ok(verdict),
        Err(StampFault::Memory) => Err(AllocError),
    }
}

// The clauses in their order, over time-stamps whose tokens are sound.
fn judge_stamps(
    alloc: Global,
    stamps: &[Checked<'_, '_>],
    question: &Question<'_, '_>,
) -> Result<Verdict, AllocError>
    requires few { length question.now.documents.now ≤ 64 }
    requires go_on { GoOn [] (places_seen stamps.now) }
    ensures { IfOk result (λ verdict. verdict
        ≡ verdict_of question.now.policy.now question.now.documents.now
        question.now.mode question.now.moment (map checked_seen stamps.now)) }
{
    let Question {
        documents,
        mode,
        policy,
        moment,
    } = *question;
    if let Some(verdict) = mixed_fault(stamps) {
        return Ok(verdict);
    }
    if let Some(verdict) = order_fault(stamps) {
        return Ok(verdict);
    }
    let all_owed = owed_by(alloc, documents, stamps)?;
    if let Some(verdict) = cover_fault(alloc, all_owed.as_slice())? {
        return Ok(verdict);
    }
    if let Some(verdict) = whole_fault(mode, all_owed.as_slice()) {
        return Ok(verdict);
    }
    if let Some(verdict) = early_fault(moment, stamps) {
        return Ok(verdict);
    }
    let marks = marks(alloc, stamps)?;
    match first_lapse(policy, moment, marks.as_slice()) {
        Some(lapse) => Ok(Verdict::Lapsed(lapse)),
        None => Ok(Verdict::Valid),
    }
}
