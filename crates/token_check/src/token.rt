ghost use Rattle.std.specs.Prelude.{◌≡◌, ◌⊎◌, ℕ, List, Some, None, Ok, Err, OnOk, IfOk, IfErr, IsOkAnd};
ghost use Rattle.cms_signed.specs.Signed.{signed_seen};
ghost use Rattle.tst_info.specs.Info.{tst_seen, ReadsTst, tst_first_fault};
ghost use Rattle.algorithm_policy.specs.Content.{Content};
ghost use Rattle.token_check.specs.declared.fault.Check.{Check};
ghost use Rattle.token_check.specs.declared.fault.TokenFault.TheVariants as faults;
ghost use Rattle.token_check.specs.Sound.{Stamp, IsSigned, IsSignedBy, IsTrusted, Sound, bytes_seen, stamp_seen};
ghost use Rattle.token_check.specs.Fault.{is_certificate, Fails, NoMemory, Blames};
ghost use Rattle.token_check.specs.Inside.{IsContentFault, IsTrustFault, IsAuthorityFault};

use crate::fault::{Check, TokenFault};
use algorithm_policy::{Policy, Signer};
use civil_moment::{Moment, TimeFault};
use cms_signed::{Signed, known_hash, read_signed, signed_bytes};
use hash_kit::{HashAlg, HashValue, digest};
use lms_verify::hss_verify;
use std::alloc::Global;
use tst_info::{TstFault, TstInfo, TstKind, read_tst};

/// The most bytes of a token.
const LONGEST: usize = 65_536;

/// What a sound token says. Each part is a range of its bytes.
#[derive(Clone, Copy, Debug)]
pub struct CheckedStamp<'a> {
    /// The token.
    pub bytes: &'a [u8],
    /// The hash of the imprint.
    pub alg: HashAlg,
    /// The hash value that was stamped, of any length.
    pub imprint: &'a [u8],
    pub time: Moment,
    /// The nonce: the contents octets of an INTEGER, in the fewest.
    pub nonce: Option<&'a [u8]>,
    /// All bytes of the signer's identifier.
    pub sid: &'a [u8],
}

/// What a token says that is sound under the policy (RFC 3161, 2.2), or the first check that fails. Sound tokens have at
/// most 65,536 bytes, are signed by an authority of the policy with SHA-256 and HSS/LMS, and name its certificate.
/// Whether the authority's key was good at the time is not asked.
pub fn check_token<'a>(
    alloc: Global,
    bytes: &'a [u8],
    policy: &Policy,
) -> Result<CheckedStamp<'a>, TokenFault>
    // What is answered is sound, and it is of this token.
    ensures sound { IfOk result (λ s. Sound policy.now bytes.now (stamp_seen s)) }
    ensures token { IfOk result (λ s. s.bytes.now ≡ bytes.now) }

    // What a sound token says is answered, unless memory runs out.
    ensures only { (stamp : Stamp) → Sound policy.now bytes.now stamp
        → IsOkAnd result (λ s. stamp_seen s ≡ stamp) ⊎ (result ≡ Err faults.Memory) }

    // The check that is answered is the first that fails, and the first is answered, unless memory runs out.
    ensures fault { (check : Check) → result ≡ Err (faults.Check check) → Fails policy.now bytes.now check }
    ensures refused { (check : Check) → Fails policy.now bytes.now check
        → (result ≡ Err (faults.Check check)) ⊎ (result ≡ Err faults.Memory) }

    // Want of memory stands in no check.
    ensures apart { IfErr result (Blames NoMemory) }
{
    checked(alloc, bytes, policy)
}

fn checked<'a>(
    alloc: Global,
    bytes: &'a [u8],
    policy: &Policy,
) -> Result<CheckedStamp<'a>, TokenFault>
    ensures sound { IfOk result (λ s. Sound policy.now bytes.now (stamp_seen s)) }
    ensures token { IfOk result (λ s. s.bytes.now ≡ bytes.now) }
    ensures fault { IfErr result (Blames (Fails policy.now bytes.now)) }
    ensures apart { IfErr result (Blames NoMemory) }
{
    let signed = signed_in(bytes)?;
    let info = info_in(signed.content)?;
    match trusted_hash(alloc, &signed, &info, policy) {
        Ok(alg) => Ok(CheckedStamp {
            bytes,
            alg,
            imprint: info.imprint,
            time: info.time,
            nonce: info.nonce,
            sid: signed.sid,
        }),
        Err(fault) => Err(fault),
    }
}

// The signed time-stamp that the bytes are.
fn signed_in(bytes: &[u8]) -> Result<Signed<'_>, Check>
    ensures signed { IfOk result (λ s. IsSigned bytes.now (signed_seen s)) }
    ensures fault { (policy : Content) → IfErr result (Fails policy bytes.now) }
    ensures apart { IfErr result NoMemory }
{
    if bytes.len() > LONGEST {
        return Err(Check::TooLong);
    }
    match read_signed(bytes) {
        Ok(signed) => Ok(signed),
        Err(fault) => Err(Check::Cms(fault)),
    }
}

// The TSTInfo that the content is.
fn info_in(content: &[u8]) -> Result<TstInfo<'_>, TokenFault>
    ensures read { IfOk result (λ info. ReadsTst content.now (tst_seen info)) }
    ensures fault { IfErr result (Blames (IsContentFault content.now)) }
    ensures apart { IfErr result (Blames NoMemory) }
{
    match read_tst(content) {
        Ok(info) => Ok(info),
        Err(fault) => Err(content_fault(fault)),
    }
}

// Want of memory is set apart from what is wrong with a time.
fn content_fault(fault: TstFault) -> TokenFault
    ensures fault { (content : List ℕ) → tst_first_fault content ≡ Some fault
        → Blames (IsContentFault content) result }
    ensures apart { Blames NoMemory result }
{
    match fault.kind {
        TstKind::Time(TimeFault::Memory) => TokenFault::Memory,
        _ => TokenFault::Check(Check::Tst(fault)),
    }
}

// The hash of the imprint, where the policy trusts the signer and the signature is right.
fn trusted_hash(
    alloc: Global,
    signed: &Signed<'_>,
    info: &TstInfo<'_>,
    policy: &Policy,
) -> Result<HashAlg, TokenFault>
    ensures trusted { IfOk result (IsTrusted policy.now (signed_seen signed.now) (tst_seen info.now)) }
    ensures fault { IfErr result (Blames (IsTrustFault policy.now (signed_seen signed.now) (tst_seen info.now))) }
    ensures apart { IfErr result (Blames NoMemory) }
{
    let Some(alg) = known_hash(&info.hash) else {
        return Err(TokenFault::Check(Check::HashUnknown));
    };
    let Some(signer) = policy.signer(signed.sid) else {
        return Err(TokenFault::Check(Check::UnknownSigner));
    };
    match check_signer(alloc, signed, signer) {
        Ok(()) => Ok(alg),
        Err(fault) => Err(fault),
    }
}

// Whether the authority has signed.
fn check_signer(alloc: Global, signed: &Signed<'_>, signer: &Signer) -> Result<(), TokenFault>
    ensures by { OnOk result (IsSignedBy signer.now (signed_seen signed.now)) }
    ensures fault { IfErr result (Blames (IsAuthorityFault signer.now (signed_seen signed.now))) }
    ensures apart { IfErr result (Blames NoMemory) }
{
    if !is_certificate(signed.cert_hash, &signer.cert) {
        return Err(TokenFault::Check(Check::CertHash));
    }
    if signed.message_digest != digest(HashAlg::Sha256, signed.content).bytes() {
        return Err(TokenFault::Check(Check::MessageDigest));
    }
    let message = signed_bytes(alloc, signed)?;
    if hss_verify(&signer.key, message.as_slice(), signed.signature) {
        Ok(())
    } else {
        Err(TokenFault::Check(Check::BadSignature))
    }
}

// Whether the certificate's hash is there, and is the authority's.
fn is_certificate(hash: Option<&[u8]>, cert: &HashValue) -> bool
    ensures { result ≡ is_certificate (bytes_seen hash.entry) cert.now }
{
    match hash {
        Some(hash) => hash == cert.bytes(),
        None => false,
    }
}
