// The signature of a record's first token.
ghost use Rattle.std.specs.Prelude.{◌≡◌, ◌⊎◌, ℕ, List, Some, None, Err, IfOk, IfErr};
ghost use Rattle.evidence_syntax.specs.Stamps.{chains_seen};
ghost use Rattle.bench_works.specs.declared.fault.BenchFault.TheVariants.{NoSignature, Memory};
ghost use Rattle.bench_works.specs.Signature.{first_token, IsFirstToken, IsFirstSignature};

use crate::fault::BenchFault;
use algorithm_policy::Policy;
use cms_signed::{read_signed, signed_bytes};
use evidence_syntax::{Chain, SyntaxFault, read_record};
use hash_kit::HssPublic;
use std::alloc::Global;

/// A signature, what it signs, and the key that it has to verify under.
#[derive(Debug, Drop)]
pub struct TokenSignature<'a> {
    pub key: HssPublic,
    pub message: Vec<u8>,
    pub signature: &'a [u8],
}

/// The signature of the first token of a record, which signs the token's attributes (RFC 5652, 5.4), with the key of the
/// policy's authority that the token names. Whether it verifies is not asked.
pub fn first_signature<'a>(
    alloc: Global,
    evidence: &'a [u8],
    policy: &Policy,
) -> Result<TokenSignature<'a>, BenchFault>
    ensures found { IfOk result (λ s. IsFirstSignature policy.now evidence.now s.key s.message.items s.signature.now) }

    // There is none where none is answered. Else want of memory alone keeps it back.
    ensures none { result ≡ Err NoSignature → (key message signature : List ℕ)
        → ¬ (IsFirstSignature policy.now evidence.now key message signature) }
    ensures faults { IfErr result (λ e. (e ≡ NoSignature) ⊎ (e ≡ Memory)) }
{
    let token = first_token(alloc, evidence)?;
    let Ok(signed) = read_signed(token) else {
        return Err(BenchFault::NoSignature);
    };
    let Some(signer) = policy.signer(signed.sid) else {
        return Err(BenchFault::NoSignature);
    };
    let message = signed_bytes(alloc, &signed)?;
    Ok(TokenSignature {
        key: signer.key,
        message,
        signature: signed.signature,
    })
}

// The first token of a record.
fn first_token<'a>(alloc: Global, evidence: &'a [u8]) -> Result<&'a [u8], BenchFault>
    ensures found { IfOk result (λ token. IsFirstToken evidence.now token.now) }
    ensures only { (token : List ℕ) → IsFirstToken evidence.now token → IfOk result (λ t. t.now ≡ token) }
    ensures none { result ≡ Err NoSignature → (token : List ℕ) → ¬ (IsFirstToken evidence.now token) }
    ensures faults { IfErr result (λ e. (e ≡ NoSignature) ⊎ (e ≡ Memory)) }
{
    match read_record(alloc, evidence) {
        Ok(read) => first_of(read.chains.as_slice()),
        Err(SyntaxFault::At { place, kind }) => Err(BenchFault::NoSignature),
        Err(SyntaxFault::Memory) => Err(BenchFault::Memory),
    }
}

// The first token of these chains.
fn first_of<'a>(chains: &[Chain<'a>]) -> Result<&'a [u8], BenchFault>
    ensures found { IfOk result (λ token. first_token (chains_seen chains.now) ≡ Some token.now) }
    ensures none { IfErr result (λ e. (e ≡ NoSignature) × (first_token (chains_seen chains.now) ≡ None)) }
{
    let Some(chain) = chains.first() else {
        return Err(BenchFault::NoSignature);
    };
    match chain.stamps.as_slice().first() {
        Some(stamp) => Ok(stamp.token),
        None => Err(BenchFault::NoSignature),
    }
}
