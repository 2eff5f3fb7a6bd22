ghost use Rattle.std.specs.Prelude.{◌≡◌, Some, IfOk, IfErr, IsOkAnd};
ghost use Rattle.der_values.specs.Steps.{Gives};
ghost use Rattle.der_values.specs.Next.{seen, IsValue};
ghost use Rattle.der_values.specs.Reading.{Finds};
ghost use Rattle.der_values.specs.Grammar.{from_start};
ghost use Rattle.cms_signed.specs.State.{start};
ghost use Rattle.cms_signed.specs.Checks.{signed_data_at, version_at, tst_info_at};
ghost use Rattle.cms_signed.specs.Signed.{Parts, signed_data_named, explicit_named, content_info_named, token_named, ReadsSigned, first_fault, as_set, signed_seen};
ghost use Rattle.cms_signed.specs.Inside.{content_seen, named_seen, octets_in_0_named, octets_in_0_in, content_named, content_in, signed_data_in, explicit_in, content_info_in, token_in};

use crate::algorithms::digest_algorithms;
use crate::attributes::TST_INFO;
use crate::fault::CmsFault;
use crate::signers::{VERSION_3, end_of_signed_data};
use der_values::{Reader, Tlv, read_integer, read_oid};
use std::alloc::{AllocError, Global};

/// id-signedData (RFC 5652, 5.1).
pub(crate) const SIGNED_DATA: [u8; 9] = [0x2a, 0x86, 0x48, 0x86, 0xf7, 0x0d, 0x01, 0x07, 0x02];

/// A signed time-stamp. Each part is a range of the token's bytes.
#[derive(Clone, Copy, Debug)]
pub struct Signed<'a> {
    /// The octets of the content that is signed, a TSTInfo.
    pub content: &'a [u8],
    /// All bytes of the signer's identifier.
    pub sid: &'a [u8],
    /// All bytes of the signed attributes, under the tag [0].
    pub attrs: &'a [u8],
    /// The value of the message-digest attribute.
    pub message_digest: &'a [u8],
    /// The hash of the signer's certificate, where it is by SHA-256.
    pub cert_hash: Option<&'a [u8]>,
    /// The octets of the signature.
    pub signature: &'a [u8],
}

#[tactic(auto, unfolding(crate::specs::Checks::signed_data_at))]
fn check_signed_data(t: &Tlv<'_>) -> Result<(), CmsFault>
    requires { IsValue t.now }
    ensures { Gives (λ u. start) result (signed_data_at start (seen t.now)) }
{
    if read_oid(t)? == SIGNED_DATA.as_slice() {
        Ok(())
    } else {
        Err(CmsFault::NotSignedData)
    }
}

#[tactic(auto, unfolding(crate::specs::Checks::version_at))]
fn check_version(t: &Tlv<'_>) -> Result<(), CmsFault>
    requires { IsValue t.now }
    ensures { Gives (λ u. start) result (version_at start (seen t.now)) }
{
    if read_integer(t)? == VERSION_3.as_slice() {
        Ok(())
    } else {
        Err(CmsFault::Version)
    }
}

#[tactic(auto, unfolding(crate::specs::Checks::tst_info_at))]
fn check_tst_info(t: &Tlv<'_>) -> Result<(), CmsFault>
    requires { IsValue t.now }
    ensures { Gives (λ u. start) result (tst_info_at start (seen t.now)) }
{
    if read_oid(t)? == TST_INFO.as_slice() {
        Ok(())
    } else {
        Err(CmsFault::ContentType)
    }
}

// The octets in an EXPLICIT [0].
#[tactic(auto, unfolding(der_values::specs::Reading::read))]
fn octets<'a>(t: &Tlv<'a>) -> Result<&'a [u8], CmsFault>
    requires { IsValue t.now }
    ensures { Finds octets_in_0_named content_seen result (octets_in_0_in start (seen t.now)) }
{
    let mut reader = t.contents();
    let octets = reader.expect(0x04)?.content;
    reader.finish()?;
    Ok(octets)
}

// EncapsulatedContentInfo (RFC 5652, 5.2).
#[tactic(auto, unfolding(der_values::specs::Reading::read))]
fn content<'a>(t: &Tlv<'a>) -> Result<&'a [u8], CmsFault>
    requires { IsValue t.now }
    ensures { Finds content_named content_seen result (content_in start (seen t.now)) }
{
    let mut reader = t.contents();
    check_tst_info(&reader.expect(0x06)?)?;
    let content = octets(&reader.expect(0xa0)?)?;
    reader.finish()?;
    Ok(content)
}

// SignedData (RFC 5652, 5.1).
#[tactic(auto, unfolding(der_values::specs::Reading::read))]
fn signed_data<'a>(t: &Tlv<'a>) -> Result<Signed<'a>, CmsFault>
    requires { IsValue t.now }
    ensures { Finds signed_data_named named_seen result (signed_data_in start (seen t.now)) }
{
    let mut reader = t.contents();
    check_version(&reader.expect(0x02)?)?;
    digest_algorithms(&reader.expect(0x31)?)?;
    let content = content(&reader.expect(0x30)?)?;
    let signer = end_of_signed_data(reader)?;
    Ok(Signed {
        content,
        sid: signer.sid,
        attrs: signer.signature.attributes.whole,
        message_digest: signer.signature.attributes.message_digest,
        cert_hash: signer.signature.attributes.cert_hash,
        signature: signer.signature.octets,
    })
}

// The SignedData in an EXPLICIT [0].
#[tactic(auto, unfolding(der_values::specs::Reading::read))]
fn explicit<'a>(t: &Tlv<'a>) -> Result<Signed<'a>, CmsFault>
    requires { IsValue t.now }
    ensures { Finds explicit_named named_seen result (explicit_in start (seen t.now)) }
{
    let mut reader = t.contents();
    let signed = signed_data(&reader.expect(0x30)?)?;
    reader.finish()?;
    Ok(signed)
}

// ContentInfo (RFC 5652, 3).
#[tactic(auto, unfolding(der_values::specs::Reading::read))]
fn content_info<'a>(t: &Tlv<'a>) -> Result<Signed<'a>, CmsFault>
    requires { IsValue t.now }
    ensures { Finds content_info_named named_seen result (content_info_in start (seen t.now)) }
{
    let mut reader = t.contents();
    check_signed_data(&reader.expect(0x06)?)?;
    let signed = explicit(&reader.expect(0xa0)?)?;
    reader.finish()?;
    Ok(signed)
}

#[tactic(auto, unfolding(der_values::specs::Reading::read))]
fn whole_token(bytes: &[u8]) -> Result<Signed<'_>, CmsFault>
    ensures { Finds token_named named_seen result (token_in (from_start bytes.now)) }
{
    let mut reader = Reader::new(bytes, 0);
    let signed = content_info(&reader.expect(0x30)?)?;
    reader.finish()?;
    Ok(signed)
}

/// The signed time-stamp that the bytes are, a ContentInfo with SignedData (RFC 5652, 3 and 5) of version 3 over a
/// TSTInfo (RFC 3161, 2.4.2), by one signer with SHA-256 and HSS/LMS (RFC 8708).
/// Certificates, revocation lists, unsigned attributes and signed ones of other kinds are not looked into.
pub fn read_signed<'a>(token: &'a [u8]) -> Result<Signed<'a>, CmsFault>
    // What is answered is what the bytes say, and what they say is answered.
    ensures found { IfOk result (λ s. ReadsSigned token.now (signed_seen s)) }
    ensures only { (parts : Parts) → ReadsSigned token.now parts → IsOkAnd result (λ s. signed_seen s ≡ parts) }

    // Else the first fault is.
    ensures fault { IfErr result (λ e. first_fault token.now ≡ Some e) }
{
    whole_token(token)
}

/// The bytes that the signature is over: the signed attributes with the tag of a SET OF (RFC 5652, 5.4).
pub fn signed_bytes(alloc: Global, signed: &Signed<'_>) -> Result<Vec<u8>, AllocError>
    ensures { IfOk result (λ bytes. bytes.items ≡ as_set signed.now.attrs.now) }
{
    let mut bytes = Vec::new(alloc);
    bytes.push(0x31)?;
    bytes.extend_from_slice(signed.attrs.get(1..).unwrap_or(&[]))?;
    Ok(bytes)
}
