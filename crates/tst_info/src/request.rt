ghost use Rattle.std.specs.Prelude.{◌≡◌, ◌<◌, ◌^◌, length, Some, IfOk, IfErr, IsOkAnd};
ghost use Rattle.std.specs.Option.{option_map};
ghost use Rattle.der_values.specs.Next.{contents, seen, IsValue};
ghost use Rattle.der_values.specs.Reading.{Finds};
ghost use Rattle.der_values.specs.Grammar.{from_start};
ghost use Rattle.tst_info.specs.Request.{ToStamp, request_of, request_seen, ReadsRequest, request_first_fault, request_contents, request_text, HasRequestSpelling};
ghost use Rattle.tst_info.specs.Inside.{nonce_of, wishes_at, request_contents_at, request_at};

use crate::checks::{check_flag, check_nonce, check_policy, check_version};
use crate::fault::TstFault;
use crate::imprint::imprint;
use crate::writing::{imprint_bytes, write_nonce};
use der_values::{AlgName, Reader, Tlv, content_of, tlv_bytes, write_tlv};
use std::alloc::{AllocError, Global};

/// A TimeStampReq (RFC 3161, 2.4.1), by the parts that are named: reqPolicy, certReq and extensions are not.
#[derive(Clone, Copy, Debug)]
pub struct StampRequest<'a> {
    /// The hash of the imprint, known or not.
    pub hash: AlgName<'a>,
    /// The hash value to be stamped, of any length.
    pub imprint: &'a [u8],
    /// The nonce: the contents octets of an INTEGER, in the fewest.
    pub nonce: Option<&'a [u8]>,
}

// The nonce, of all that may follow the imprint.
#[tactic(auto, using(der_values::proofs::Passed::optional_checked), unfolding(der_values::specs::Reading::read))]
fn nonce<'a>(mut reader: Reader<'a>) -> Result<Option<&'a [u8]>, TstFault>
    ensures { Finds (λ p σ. nonce_of p) (λ o. option_map (λ b. b.now) o) result (wishes_at reader.entry) }
{
    let policy = reader.optional(0x06)?;
    check_policy(&policy)?;
    let nonce = reader.optional(0x02)?;
    check_nonce(&nonce)?;
    let certificates = reader.optional(0x01)?;
    check_flag(&certificates)?;
    let _extensions = reader.optional(0xa0)?;
    reader.finish()?;
    Ok(content_of(nonce))
}

#[tactic(auto, unfolding(der_values::specs::Reading::read))]
fn request_in<'a>(t: &Tlv<'a>) -> Result<StampRequest<'a>, TstFault>
    requires { IsValue t.now }
    ensures { Finds (λ p σ. request_of p) request_seen result (request_contents_at (contents (seen t.now))) }
{
    let mut reader = t.contents();
    check_version(&reader.expect(0x02)?)?;
    let imprint = imprint(&reader.expect(0x30)?)?;
    let nonce = nonce(reader)?;
    Ok(StampRequest {
        hash: imprint.hash,
        imprint: imprint.bytes,
        nonce,
    })
}

#[tactic(auto, unfolding(der_values::specs::Reading::read))]
fn whole_request(bytes: &[u8]) -> Result<StampRequest<'_>, TstFault>
    ensures { Finds (λ p σ. request_of p.0) request_seen result (request_at (from_start bytes.now)) }
{
    let mut reader = Reader::new(bytes, 0);
    let request = request_in(&reader.expect(0x30)?)?;
    reader.finish()?;
    Ok(request)
}

/// The request that the bytes are, or their first fault with its place.
pub fn read_request(bytes: &[u8]) -> Result<StampRequest<'_>, TstFault>
    // What is answered is what the bytes say, and what they say is answered.
    ensures found { IfOk result (λ q. ReadsRequest bytes.now (request_seen q)) }
    ensures only { (parts : ToStamp) → ReadsRequest bytes.now parts → IsOkAnd result (λ q. request_seen q ≡ parts) }

    // Else the first fault is.
    ensures fault { IfErr result (λ e. request_first_fault bytes.now ≡ Some e) }
{
    whole_request(bytes)
}

// The contents of the SEQUENCE.
fn contents_bytes(alloc: Global, request: &StampRequest<'_>) -> Result<Vec<u8>, AllocError>
    requires { length (request_contents (request_seen request.now)) < 2 ^ 32 }
    ensures { IfOk result (λ contents. contents.items ≡ request_contents (request_seen request.now)) }
{
    let imprint = imprint_bytes(alloc, &request.hash, request.imprint)?;
    let mut contents = Vec::new(alloc);
    write_tlv(&mut contents, 0x02, &[1])?;
    write_tlv(&mut contents, 0x30, imprint.as_slice())?;
    write_nonce(&mut contents, request.nonce)?;
    Ok(contents)
}

/// The one spelling of the parts, without reqPolicy, certReq and extensions.
pub fn write_request(alloc: Global, request: &StampRequest<'_>) -> Result<Vec<u8>, AllocError>
    requires { HasRequestSpelling (request_seen request.now) }
    ensures spelled { IfOk result (λ bytes. bytes.items ≡ request_text (request_seen request.now)) }
    ensures read { IfOk result (λ bytes. ReadsRequest bytes.items (request_seen request.now)) }
{
    let contents = contents_bytes(alloc, request)?;
    tlv_bytes(alloc, 0x30, contents.as_slice())
}
