ghost use Rattle.std.specs.Prelude.{◌≡◌, ◌+◌, ◌^◌, ◌<◌, ◌≤◌, ◌++◌, ℕ, List, length, vec_len, IfOk, OnOk};
ghost use Rattle.hash_kit.specs.declared.algorithm.HashAlg.TheVariants.{Sha256};
ghost use Rattle.der_values.specs.Value.{value};
ghost use Rattle.cms_signed.specs.Names.{type_of};
ghost use Rattle.cms_signed.specs.Signed.{ReadsSigned, as_set};
ghost use Rattle.cms_signed.specs.Text.{algorithm_text, attribute_text, certificate_text, attributes_text, version_of, signer_contents, encap_contents, content_text, signed_data_contents, token_text, written, HasText, to_sign};
ghost use Rattle.cms_signed.specs.Inside.{HasRoom};

use crate::algorithms::HSS_LMS;
use crate::attributes::{TST_INFO, type_of};
use crate::fault::AttrKind;
use crate::signers::{VERSION_1, VERSION_3};
use crate::token::SIGNED_DATA;
use der_values::{AlgName, Bytes, tlv_bytes, write_algorithm, write_tlv};
use hash_kit::{HashAlg, HashValue, digest};
use std::alloc::{AllocError, Global};

/// What is to be signed: the octets of a TSTInfo, the encoding of the signer's identifier, and the SHA-256 of the
/// signer's certificate.
#[derive(Debug, Drop)]
pub struct Unsigned {
    pub content: Bytes,
    pub sid: Bytes,
    pub cert_hash: HashValue,
}

// Adds an AlgorithmIdentifier without parameters.
fn write_without_parameters(out: &mut Vec<u8>, oid: &[u8]) -> Result<(), AllocError>
    requires { length oid.now ≤ 64 }
    ensures ok { OnOk result (out.new.items ≡ out.old.items ++ algorithm_text oid.now) }
    ensures len { OnOk result (vec_len out.new ≤ vec_len out.old + length oid.now + 12) }
{
    write_algorithm(out, 0x30, &AlgName { oid, params: None })
}

// Adds an attribute with this one value.
fn write_attribute(out: &mut Vec<u8>, kind: AttrKind, text: &[u8]) -> Result<(), AllocError>
    requires { length text.now ≤ 128 }
    ensures ok { OnOk result (out.new.items ≡ out.old.items ++ attribute_text kind text.now) }
    ensures len { OnOk result (vec_len out.new ≤ vec_len out.old + length text.now + 29) }
{
    let alloc = *out.allocator();
    let mut content = Vec::new(alloc);
    write_tlv(&mut content, 0x06, type_of(kind))?;
    write_tlv(&mut content, 0x31, text)?;
    write_tlv(out, 0x30, content.as_slice())
}

// The value of the signing-certificate attribute.
fn certificate(alloc: Global, hash: &[u8]) -> Result<Vec<u8>, AllocError>
    requires { length hash.now ≤ 64 }
    ensures ok { IfOk result (λ text. text.items ≡ certificate_text hash.now) }
    ensures len { IfOk result (λ text. vec_len text ≤ length hash.now + 24) }
{
    let hash = tlv_bytes(alloc, 0x04, hash)?;
    let id = tlv_bytes(alloc, 0x30, hash.as_slice())?;
    let ids = tlv_bytes(alloc, 0x30, id.as_slice())?;
    tlv_bytes(alloc, 0x30, ids.as_slice())
}

// The signed attributes, one behind the other.
#[tactic(auto, using(std::proofs::Common::append_assoc))]
fn attributes(alloc: Global, parts: &Unsigned) -> Result<Vec<u8>, AllocError>
    ensures ok { IfOk result (λ text. text.items ≡ attributes_text (to_sign parts.now)) }
    ensures len { IfOk result (λ text. vec_len text ≤ 512) }
{
    let content_type = tlv_bytes(alloc, 0x06, &TST_INFO)?;
    let digest = digest(HashAlg::Sha256, parts.content.as_slice());
    let message_digest = tlv_bytes(alloc, 0x04, digest.bytes())?;
    let certificate = certificate(alloc, parts.cert_hash.bytes())?;
    let mut text = Vec::new(alloc);
    write_attribute(&mut text, AttrKind::ContentType, content_type.as_slice())?;
    write_attribute(
        &mut text,
        AttrKind::MessageDigest,
        message_digest.as_slice(),
    )?;
    write_attribute(
        &mut text,
        AttrKind::SigningCertificate,
        certificate.as_slice(),
    )?;
    Ok(text)
}

fn set_of_attributes(alloc: Global, parts: &Unsigned) -> Result<Vec<u8>, AllocError>
    ensures { IfOk result (λ bytes. bytes.items ≡ value 0x31 (attributes_text (to_sign parts.now))) }
{
    let attributes = attributes(alloc, parts)?;
    tlv_bytes(alloc, 0x31, attributes.as_slice())
}

/// The bytes that are to be signed: the attributes content-type, message-digest and signing-certificate, with the
/// tag of a SET OF (RFC 5652, 5.4).
pub fn attrs_to_sign(alloc: Global, parts: &Unsigned) -> Result<Vec<u8>, AllocError>
    ensures text { IfOk result (λ bytes. bytes.items ≡ value 0x31 (attributes_text (to_sign parts.now))) }

    // They are what is signed in the token that is written, whatever the signature.
    ensures signed { IfOk result (λ bytes. (signature : List ℕ)
        → bytes.items ≡ as_set (written (to_sign parts.now) signature).attrs) }
{
    set_of_attributes(alloc, parts)
}

fn version_of(sid: &[u8]) -> &'static [u8]
    ensures octets { result.now ≡ version_of sid.now }
    ensures size { length result.now ≡ 1 }
{
    if sid.first() == Some(&0x30) {
        &VERSION_1
    } else {
        &VERSION_3
    }
}

// SignerInfo (RFC 5652, 5.3).
#[tactic(auto, using(std::proofs::Common::append_assoc))]
fn signer(alloc: Global, parts: &Unsigned, signature: &[u8]) -> Result<Vec<u8>, AllocError>
    requires { HasRoom (to_sign parts.now) signature.now }
    ensures { IfOk result (λ text. text.items ≡ value 0x30 (signer_contents (to_sign parts.now) signature.now)) }
{
    let attributes = attributes(alloc, parts)?;
    let mut content = Vec::new(alloc);
    write_tlv(&mut content, 0x02, version_of(parts.sid.as_slice()))?;
    content.extend_from_slice(parts.sid.as_slice())?;
    write_without_parameters(&mut content, HashAlg::Sha256.oid())?;
    write_tlv(&mut content, 0xa0, attributes.as_slice())?;
    write_without_parameters(&mut content, &HSS_LMS)?;
    write_tlv(&mut content, 0x04, signature)?;
    tlv_bytes(alloc, 0x30, content.as_slice())
}

// Adds the EncapsulatedContentInfo (RFC 5652, 5.2).
fn write_content(out: &mut Vec<u8>, octets: &[u8]) -> Result<(), AllocError>
    requires octets { length octets.now < 2 ^ 32 }
    requires explicit { length (value 0x04 octets.now) < 2 ^ 32 }
    requires content { length (encap_contents octets.now) < 2 ^ 32 }
    ensures { OnOk result (out.new.items ≡ out.old.items ++ content_text octets.now) }
{
    let alloc = *out.allocator();
    let octets = tlv_bytes(alloc, 0x04, octets)?;
    let mut content = Vec::new(alloc);
    write_tlv(&mut content, 0x06, &TST_INFO)?;
    write_tlv(&mut content, 0xa0, octets.as_slice())?;
    write_tlv(out, 0x30, content.as_slice())
}

// SignedData (RFC 5652, 5.1).
#[tactic(auto, using(std::proofs::Common::append_assoc))]
fn signed_data(alloc: Global, parts: &Unsigned, signature: &[u8]) -> Result<Vec<u8>, AllocError>
    requires { HasRoom (to_sign parts.now) signature.now }
    ensures { IfOk result (λ text. text.items ≡ value 0x30 (signed_data_contents (to_sign parts.now) signature.now)) }
{
    let mut digest = Vec::new(alloc);
    write_without_parameters(&mut digest, HashAlg::Sha256.oid())?;
    let signer = signer(alloc, parts, signature)?;
    let mut content = Vec::new(alloc);
    write_tlv(&mut content, 0x02, &VERSION_3)?;
    write_tlv(&mut content, 0x31, digest.as_slice())?;
    write_content(&mut content, parts.content.as_slice())?;
    write_tlv(&mut content, 0x31, signer.as_slice())?;
    tlv_bytes(alloc, 0x30, content.as_slice())
}

// ContentInfo (RFC 5652, 3).
fn content_info(alloc: Global, parts: &Unsigned, signature: &[u8]) -> Result<Vec<u8>, AllocError>
    requires { HasText (to_sign parts.now) signature.now }
    ensures { IfOk result (λ text. text.items ≡ token_text (to_sign parts.now) signature.now) }
{
    let data = signed_data(alloc, parts, signature)?;
    let mut content = Vec::new(alloc);
    write_tlv(&mut content, 0x06, &SIGNED_DATA)?;
    write_tlv(&mut content, 0xa0, data.as_slice())?;
    tlv_bytes(alloc, 0x30, content.as_slice())
}

// That a hash value is short is known of its bytes.
fn is_short(hash: &HashValue)
    ensures { length hash.now ≤ 64 }
{
    hash.bytes();
}

/// The token of these parts with this signature: a ContentInfo with SignedData of version 3, without certificates,
/// by one signer, whose version is 1 where it is identified by issuer and serial number, and else 3.
pub fn write_signed(
    alloc: Global,
    parts: &Unsigned,
    signature: &[u8],
) -> Result<Vec<u8>, AllocError>
    requires { HasText (to_sign parts.now) signature.now }
    ensures text { IfOk result (λ bytes. bytes.items ≡ token_text (to_sign parts.now) signature.now) }

    // It is read again with these parts.
    ensures read_again { IfOk result (λ bytes. ReadsSigned bytes.items (written (to_sign parts.now) signature.now)) }
{
    is_short(&parts.cert_hash);
    content_info(alloc, parts, signature)
}
