// The replies: a token that is signed by an index, and the rejection.
ghost use Rattle.std.specs.Prelude.{◌≡◌, ◌+◌, ◌/◌, ◌%◌, ◌≤◌, ◌<◌, ◌^◌, [], ◌∷◌, length, take, IfOk};
ghost use Rattle.hash_kit.specs.declared.algorithm.HashAlg.{HashAlg};
ghost use Rattle.tst_info.specs.Request.{request_seen};
ghost use Rattle.tst_info.specs.Info.{WritesTst, HasTstSpelling};
ghost use Rattle.trial_authority.specs.Key.{trial_key, certificate_of, leaves};
ghost use Rattle.trial_authority.specs.Reply.{Asks, trial_policy, positive, info_with, info_of, token_of, Grants, rejection};

use civil_moment::Moment;
use cms_signed::{Unsigned, attrs_to_sign, write_signed};
use der_values::{AlgName, Bytes};
use hash_kit::{HashAlg, HashValue, digest};
use lms_sign::HssKey;
use std::alloc::{AllocError, Global};
use tst_info::{StampRequest, TstInfo, write_response, write_tst};

/// The contents octets of the time-stamp policy 2.999.1.
const POLICY: [u8; 3] = [0x88, 0x37, 0x01];

/// The status of a response that grants, and of one that rejects (RFC 3161, 2.4.2).
const GRANTED: u8 = 0;

const REJECTION: u8 = 2;

/// The response that rejects.
pub(crate) fn rejected(alloc: Global) -> Result<Vec<u8>, AllocError>
    ensures { IfOk result (λ reply. reply.items ≡ rejection) }
{
    write_response(alloc, REJECTION, None)
}

/// The response that grants what was asked, at a moment, by an index of the key.
pub(crate) fn granted(
    alloc: Global,
    key: &HssKey,
    index: u32,
    now: Moment,
    asked: &StampRequest<'_>,
    _request: &[u8],
) -> Result<Vec<u8>, AllocError>
    requires key { key.now ≡ trial_key key.now.seed }
    requires index { index < leaves }
    requires asked { (alg : HashAlg) × Asks _request.now (request_seen asked.now) alg }
    ensures { IfOk result (λ reply. Grants key.now.seed index now (request_seen asked.now) reply.items) }
{
    let info = info(alloc, *asked, index, now, _request)?;
    let token = token(alloc, key, index, info)?;
    write_response(alloc, GRANTED, Some(&token))
}

// The TSTInfo of a token that is signed by an index.
fn info(
    alloc: Global,
    asked: StampRequest<'_>,
    index: u32,
    now: Moment,
    _request: &[u8],
) -> Result<Vec<u8>, AllocError>
    requires index { index < leaves }
    requires asked { (alg : HashAlg) × Asks _request.now (request_seen asked) alg }
    ensures says { IfOk result (λ bytes. WritesTst bytes.items (info_of (request_seen asked.entry) index now)) }
    ensures short { IfOk result (λ bytes. length bytes.items ≤ 8192) }
{
    let number = index + 1;
    let added = Added {
        policy: POLICY,
        serial: [(number / 256) as u8, (number % 256) as u8],
    };
    info_with(alloc, asked, &added, number, now)
}

// What the authority adds to a request: the policy, and the serial number in two bytes.
#[derive(Drop)]
struct Added {
    policy: [u8; 3],
    serial: [u8; 2],
}

// The TSTInfo with a serial number.
fn info_with<'a>(
    alloc: Global,
    asked: StampRequest<'a>,
    added: &'a Added,
    number: u32,
    now: Moment,
) -> Result<Vec<u8>, AllocError>
    requires policy { added.now.policy ≡ trial_policy }
    requires octets { added.now.serial ≡ number / 256 ∷ number % 256 ∷ [] }
    requires few { number < 2 ^ 15 }
    requires spelled { HasTstSpelling (info_with (request_seen asked) (positive number) now) }
    ensures { IfOk result (λ bytes. WritesTst bytes.items (info_with (request_seen asked.entry) (positive number) now)) }
{
    let info = TstInfo {
        policy: &added.policy,
        hash: AlgName {
            oid: asked.hash.oid,
            params: None,
        },
        imprint: asked.imprint,
        serial: positive(&added.serial, number),
        time: now,
        ordering: false,
        nonce: asked.nonce,
    };
    write_tst(alloc, &info)
}

// The octets of a positive INTEGER, of both bytes of its number.
fn positive(octets: &[u8; 2], number: u32) -> &[u8]
    requires octets { octets.now ≡ number / 256 ∷ number % 256 ∷ [] }
    requires few { number < 2 ^ 15 }
    ensures { result.now ≡ positive number }
{
    if number < 128 { &octets[1..] } else { octets }
}

// The token over a TSTInfo.
fn token(alloc: Global, key: &HssKey, index: u32, info: Vec<u8>) -> Result<Vec<u8>, AllocError>
    requires key { key.now ≡ trial_key key.now.seed }
    requires index { index < leaves }
    requires short { length info.items ≤ 8192 }
    ensures { IfOk result (λ bytes. bytes.items ≡ token_of key.now.seed index info.items) }
{
    let certificate = certificate(key);
    let parts = Unsigned {
        content: Bytes::from_vec(info),
        sid: identifier(alloc, &certificate)?,
        cert_hash: certificate,
    };
    let message = attrs_to_sign(alloc, &parts)?;
    // There is a leaf for the index, so memory alone can be wanting.
    let Ok(signature) = key.sign(alloc, index, &message) else {
        return Err(AllocError);
    };
    write_signed(alloc, &parts, &signature)
}

// What stands for the hash of a certificate.
fn certificate(key: &HssKey) -> HashValue
    requires { key.now ≡ trial_key key.now.seed }
    ensures { result ≡ certificate_of key.now.seed }
{
    digest(HashAlg::Sha256, key.public().bytes())
}

// The encoding of the signer's identifier: the tag, the length and 20 bytes.
pub(crate) fn identifier(alloc: Global, certificate: &HashValue) -> Result<Bytes, AllocError>
    requires { 20 ≤ length certificate.now }
    ensures { IfOk result (λ sid. sid ≡ 0x80 ∷ 0x14 ∷ take 20 certificate.now) }
{
    let mut sid = Vec::with_capacity(alloc, 22)?;
    sid.extend_from_slice(&[0x80, 0x14])?;
    sid.extend_from_slice(&certificate.bytes()[..20])?;
    Ok(Bytes::from_vec(sid))
}
