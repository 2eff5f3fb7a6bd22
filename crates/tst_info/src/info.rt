ghost use Rattle.std.specs.Prelude.{◌≡◌, ◌<◌, ◌^◌, length, Some, IfOk, IfErr, IsOkAnd};
ghost use Rattle.civil_moment.specs.declared.moment.Moment.{Moment};
ghost use Rattle.der_values.specs.Next.{contents, seen, IsValue};
ghost use Rattle.der_values.specs.Reading.{Finds};
ghost use Rattle.der_values.specs.Grammar.{from_start};
ghost use Rattle.tst_info.specs.Info.{Tst, tst_of, tst_seen, with_text, ReadsTst, tst_first_fault, tst_contents, WritesTst, HasTstSpelling};
ghost use Rattle.tst_info.specs.Inside.{options_of, options_seen, options_at, tst_contents_at, tst_at, FindsTst};

use crate::checks::{check_flag, check_nonce, check_version, time};
use crate::fault::TstFault;
use crate::imprint::imprint;
use crate::writing::{imprint_bytes, write_flag, write_nonce};
use civil_moment::{Moment, write_generalized};
use der_values::{AlgName, Reader, Tlv, content_of, read_integer, read_oid, tlv_bytes, write_tlv};
use std::alloc::{AllocError, Global};

/// A TSTInfo (RFC 3161, 2.4.2), by the parts that are named; accuracy, tsa and extensions are not looked into.
#[derive(Clone, Copy, Debug)]
pub struct TstInfo<'a> {
    /// The contents octets of the policy's OBJECT IDENTIFIER.
    pub policy: &'a [u8],
    /// The hash of the imprint, known or not.
    pub hash: AlgName<'a>,
    /// The hash value that was stamped, of any length.
    pub imprint: &'a [u8],
    /// The serial number: the contents octets of an INTEGER, in the fewest.
    pub serial: &'a [u8],
    pub time: Moment,
    pub ordering: bool,
    /// The nonce: the contents octets of an INTEGER, in the fewest.
    pub nonce: Option<&'a [u8]>,
}

// What may follow the time.
#[derive(Clone, Copy, Debug)]
struct Options<'a> {
    ordering: bool,
    nonce: Option<&'a [u8]>,
}

#[tactic(auto, using(der_values::proofs::Passed::optional_checked), unfolding(der_values::specs::Reading::read))]
fn options_in<'a>(mut reader: Reader<'a>) -> Result<Options<'a>, TstFault>
    ensures { Finds (λ p σ. options_of p) options_seen result (options_at reader.entry) }
{
    let _accuracy = reader.optional(0x30)?;
    let ordering = reader.optional(0x01)?;
    check_flag(&ordering)?;
    let nonce = reader.optional(0x02)?;
    check_nonce(&nonce)?;
    let _tsa = reader.optional(0xa0)?;
    let _extensions = reader.optional(0xa1)?;
    reader.finish()?;
    Ok(Options {
        ordering: ordering.is_some(),
        nonce: content_of(nonce),
    })
}

#[tactic(auto, unfolding(der_values::specs::Reading::read))]
fn tst_in<'a>(t: &Tlv<'a>) -> Result<TstInfo<'a>, TstFault>
    requires { IsValue t.now }
    ensures { FindsTst tst_of result (tst_contents_at (contents (seen t.now))) }
{
    let mut reader = t.contents();
    check_version(&reader.expect(0x02)?)?;
    let policy = read_oid(&reader.expect(0x06)?)?;
    let imprint = imprint(&reader.expect(0x30)?)?;
    let serial = read_integer(&reader.expect(0x02)?)?;
    let time = time(&reader.expect(0x18)?)?;
    let options = options_in(reader)?;
    Ok(TstInfo {
        policy,
        hash: imprint.hash,
        imprint: imprint.bytes,
        serial,
        time,
        ordering: options.ordering,
        nonce: options.nonce,
    })
}

#[tactic(auto, unfolding(der_values::specs::Reading::read))]
fn whole_tst(bytes: &[u8]) -> Result<TstInfo<'_>, TstFault>
    ensures { FindsTst (λ p. tst_of p.0) result (tst_at (from_start bytes.now)) }
{
    let mut reader = Reader::new(bytes, 0);
    let info = tst_in(&reader.expect(0x30)?)?;
    reader.finish()?;
    Ok(info)
}

/// The TSTInfo that the bytes are, or their first fault with its place.
pub fn read_tst(bytes: &[u8]) -> Result<TstInfo<'_>, TstFault>
    // What is answered is what the bytes say, and what they say is answered.
    ensures found { IfOk result (λ info. ReadsTst bytes.now (tst_seen info)) }
    ensures only { (parts : Tst Moment) → ReadsTst bytes.now parts → IsOkAnd result (λ info. tst_seen info ≡ parts) }

    // Else the first fault is.
    ensures fault { IfErr result (λ e. tst_first_fault bytes.now ≡ Some e) }
{
    whole_tst(bytes)
}

// The contents of the SEQUENCE, with this text of the time.
fn contents_bytes(alloc: Global, info: &TstInfo<'_>, time: &[u8]) -> Result<Vec<u8>, AllocError>
    requires { length (tst_contents (with_text time.now (tst_seen info.now))) < 2 ^ 32 }
    ensures { IfOk result (λ contents. contents.items ≡ tst_contents (with_text time.now (tst_seen info.now))) }
{
    let imprint = imprint_bytes(alloc, &info.hash, info.imprint)?;
    let mut contents = Vec::new(alloc);
    write_tlv(&mut contents, 0x02, &[1])?;
    write_tlv(&mut contents, 0x06, info.policy)?;
    write_tlv(&mut contents, 0x30, imprint.as_slice())?;
    write_tlv(&mut contents, 0x02, info.serial)?;
    write_tlv(&mut contents, 0x18, time)?;
    write_flag(&mut contents, info.ordering)?;
    write_nonce(&mut contents, info.nonce)?;
    Ok(contents)
}

/// The one spelling of the parts, without accuracy, tsa and extensions.
pub fn write_tst(alloc: Global, info: &TstInfo<'_>) -> Result<Vec<u8>, AllocError>
    requires { HasTstSpelling (tst_seen info.now) }
    ensures spelled { IfOk result (λ bytes. WritesTst bytes.items (tst_seen info.now)) }
    ensures read { IfOk result (λ bytes. ReadsTst bytes.items (tst_seen info.now)) }
{
    let time = write_generalized(alloc, &info.time)?;
    let contents = contents_bytes(alloc, info, time.as_slice())?;
    tlv_bytes(alloc, 0x30, contents.as_slice())
}
