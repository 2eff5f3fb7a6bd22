ghost use Rattle.std.specs.Prelude.{◌≡◌, ◌≤◌, length, IfOk};
ghost use Rattle.der_values.specs.Steps.{Gives};
ghost use Rattle.der_values.specs.Next.{seen, IsValue};
ghost use Rattle.der_values.specs.Reading.{read, Finds};
ghost use Rattle.cms_signed.specs.Names.{type_of};
ghost use Rattle.cms_signed.specs.State.{start, has_come};
ghost use Rattle.cms_signed.specs.Checks.{attribute_at, kind_of, first_of_kind, type_at, content_type_at, missing_of, cms_checks};
ghost use Rattle.cms_signed.specs.Attributes.{attributes};
ghost use Rattle.cms_signed.specs.Signed.{attributes_named};
ghost use Rattle.cms_signed.specs.Inside.{state_of, kept_by, attributes_seen, values_in, attribute_in, each_attribute, attributes_in};

use crate::certificate::signing_certificate;
use crate::fault::{AttrKind, CmsFault};
use der_values::{Reader, Tlv, are_octets, read_oid, set_order};
use std::cmp::Ordering;

/// id-ct-TSTInfo (RFC 3161, 2.4.2).
pub(crate) const TST_INFO: [u8; 11] = [
    0x2a, 0x86, 0x48, 0x86, 0xf7, 0x0d, 0x01, 0x09, 0x10, 0x01, 0x04,
];

const CONTENT_TYPE: [u8; 9] = [0x2a, 0x86, 0x48, 0x86, 0xf7, 0x0d, 0x01, 0x09, 0x03];

const MESSAGE_DIGEST: [u8; 9] = [0x2a, 0x86, 0x48, 0x86, 0xf7, 0x0d, 0x01, 0x09, 0x04];

const SIGNING_CERTIFICATE: [u8; 11] = [
    0x2a, 0x86, 0x48, 0x86, 0xf7, 0x0d, 0x01, 0x09, 0x10, 0x02, 0x2f,
];

/// What was found among the signed attributes so far.
#[derive(Clone, Copy, Debug)]
pub(crate) struct Attributes<'a> {
    /// All bytes of the attribute before.
    pub before: &'a [u8],
    /// The kind of the attribute that is being read, where it is a known one.
    pub kind: Option<AttrKind>,
    pub content_type: bool,
    pub message_digest: Option<&'a [u8]>,
    /// Whether the hash of the certificate is by SHA-256.
    pub by_sha256: bool,
    /// The hash of the certificate, where it is by SHA-256.
    pub certificate: Option<Option<&'a [u8]>>,
}

/// The signed attributes: all their bytes, and what stands in them.
#[derive(Clone, Copy, Debug)]
pub(crate) struct SignedAttributes<'a> {
    pub whole: &'a [u8],
    pub message_digest: &'a [u8],
    pub cert_hash: Option<&'a [u8]>,
}

/// The object identifier of a kind of attribute.
pub(crate) fn type_of(kind: AttrKind) -> &'static [u8]
    ensures octets { result.now ≡ type_of kind }
    ensures size { length result.now ≤ 11 }
{
    match kind {
        AttrKind::ContentType => &CONTENT_TYPE,
        AttrKind::MessageDigest => &MESSAGE_DIGEST,
        AttrKind::SigningCertificate => &SIGNING_CERTIFICATE,
    }
}

fn kind_of(oid: &[u8]) -> Option<AttrKind>
    ensures { result ≡ kind_of oid.now }
{
    if oid == CONTENT_TYPE.as_slice() {
        Some(AttrKind::ContentType)
    } else if oid == MESSAGE_DIGEST.as_slice() {
        Some(AttrKind::MessageDigest)
    } else if oid == SIGNING_CERTIFICATE.as_slice() {
        Some(AttrKind::SigningCertificate)
    } else {
        None
    }
}

#[tactic(auto, unfolding(crate::specs::Checks::attribute_at))]
fn in_order<'a>(found: Attributes<'a>, t: &Tlv<'a>) -> Result<Attributes<'a>, CmsFault>
    requires { IsValue t.now }
    ensures { Gives state_of result (attribute_at (state_of found.entry) (seen t.now)) }
{
    if set_order(found.before, t.whole) == Ordering::Greater {
        return Err(CmsFault::AttrOrder);
    }
    Ok(Attributes {
        before: t.whole,
        ..found
    })
}

fn has_come(found: &Attributes<'_>, kind: AttrKind) -> bool
    ensures { result ≡ has_come (state_of found.now) kind }
{
    match kind {
        AttrKind::ContentType => found.content_type,
        AttrKind::MessageDigest => found.message_digest.is_some(),
        AttrKind::SigningCertificate => found.certificate.is_some(),
    }
}

// No attribute of a known kind comes twice.
fn first_of_kind<'a>(
    found: Attributes<'a>,
    kind: Option<AttrKind>,
) -> Result<Attributes<'a>, CmsFault>
    ensures { Gives state_of result (first_of_kind (state_of found.entry) kind) }
{
    if let Some(known) = kind
        && has_come(&found, known)
    {
        return Err(CmsFault::DoubleAttr(known));
    }
    Ok(Attributes { kind, ..found })
}

#[tactic(auto, unfolding(crate::specs::Checks::type_at))]
fn with_type<'a>(found: Attributes<'a>, t: &Tlv<'a>) -> Result<Attributes<'a>, CmsFault>
    requires { IsValue t.now }
    ensures { Gives state_of result (type_at (state_of found.entry) (seen t.now)) }
{
    first_of_kind(found, kind_of(read_oid(t)?))
}

#[tactic(auto, unfolding(crate::specs::Checks::content_type_at, crate::specs::Checks::tst_info_at))]
fn with_content_type<'a>(found: Attributes<'a>, t: &Tlv<'a>) -> Result<Attributes<'a>, CmsFault>
    requires { IsValue t.now }
    ensures { Gives state_of result (content_type_at (state_of found.entry) (seen t.now)) }
{
    if read_oid(t)? == TST_INFO.as_slice() {
        Ok(Attributes {
            content_type: true,
            ..found
        })
    } else {
        Err(CmsFault::ContentType)
    }
}

// The one value of an attribute of a known kind. The values of another kind are not looked into.
#[tactic(auto, unfolding(der_values::specs::Reading::read))]
fn with_value<'a>(found: Attributes<'a>, t: &Tlv<'a>) -> Result<Attributes<'a>, CmsFault>
    requires { IsValue t.now }
    ensures { Finds (λ p σ. σ) state_of result (values_in (state_of found.entry) (seen t.now)) }
{
    let mut reader = t.contents();
    match found.kind {
        Some(AttrKind::ContentType) => {
            let found = with_content_type(found, &reader.expect(0x06)?)?;
            reader.finish()?;
            Ok(found)
        }
        Some(AttrKind::MessageDigest) => {
            let digest = reader.expect(0x04)?.content;
            reader.finish()?;
            Ok(Attributes {
                message_digest: Some(digest),
                ..found
            })
        }
        Some(AttrKind::SigningCertificate) => {
            let found = signing_certificate(found, &reader.expect(0x30)?)?;
            reader.finish()?;
            Ok(found)
        }
        None => Ok(found),
    }
}

#[tactic(auto, unfolding(der_values::specs::Reading::read))]
fn with_attribute<'a>(found: Attributes<'a>, t: &Tlv<'a>) -> Result<Attributes<'a>, CmsFault>
    requires { IsValue t.now }
    ensures { Finds (λ p σ. σ) state_of result (attribute_in (state_of found.entry) (seen t.now)) }
{
    let found = in_order(found, t)?;
    let mut reader = t.contents();
    let found = with_type(found, &reader.expect(0x06)?)?;
    let found = with_value(found, &reader.expect(0x31)?)?;
    reader.finish()?;
    Ok(found)
}

fn all_attributes<'a>(mut reader: Reader<'a>) -> Result<Attributes<'a>, CmsFault>
    ensures { Finds (λ ps σ. σ) state_of result (each_attribute reader.entry) }
{
    let mut found = Attributes {
        before: &[],
        kind: None,
        content_type: false,
        message_digest: None,
        by_sha256: true,
        certificate: None,
    };
    while !reader.at_end() {
        found = with_attribute(found, &reader.expect(0x30)?)?;
    }
    Ok(found)
}

// All three kinds have come. The first that has not is named.
#[tactic(auto, unfolding(crate::specs::Checks::missing_of))]
fn complete<'a>(whole: &'a [u8], found: &Attributes<'a>) -> Result<SignedAttributes<'a>, CmsFault>
    ensures found { Gives kept_by result (missing_of (state_of found.now)) }
    ensures whole { IfOk result (λ a. a.whole.now ≡ whole.now) }
{
    if !found.content_type {
        return Err(CmsFault::MissingAttr(AttrKind::ContentType));
    }
    let Some(message_digest) = found.message_digest else {
        return Err(CmsFault::MissingAttr(AttrKind::MessageDigest));
    };
    let Some(cert_hash) = found.certificate else {
        return Err(CmsFault::MissingAttr(AttrKind::SigningCertificate));
    };
    Ok(SignedAttributes {
        whole,
        message_digest,
        cert_hash,
    })
}

// The attributes that are left, of all these bytes.
#[tactic(auto, unfolding(der_values::specs::Reading::read, der_values::specs::Next::finish_of))]
fn attributes_left<'a>(
    whole: &'a [u8],
    reader: Reader<'a>,
) -> Result<SignedAttributes<'a>, CmsFault>
    ensures found { Finds (λ p σ. σ) kept_by result (read cms_checks attributes start reader.entry) }
    ensures whole { IfOk result (λ a. a.whole.now ≡ whole.now) }
{
    let found = all_attributes(reader)?;
    complete(whole, &found)
}

/// The signed attributes (RFC 5652, 5.3).
pub(crate) fn signed_attributes<'a>(t: &Tlv<'a>) -> Result<SignedAttributes<'a>, CmsFault>
    requires value { IsValue t.now }
    requires tag { t.now.tag ≡ 0xa0 }
    ensures { Finds attributes_named attributes_seen result (attributes_in start (seen t.now)) }
{
    are_octets(t.content);
    attributes_left(t.whole, t.contents())
}
