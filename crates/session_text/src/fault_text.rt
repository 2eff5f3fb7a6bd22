// The texts of faults.
ghost use Rattle.std.specs.Prelude.{◌≡◌, ◌+◌, ◌≤◌, ◌∷◌, [], ◌++◌, length, decimal, OnOk, OnErr};
ghost use Rattle.session_text.specs.FaultTexts.{der_kind_name, time_fault_name, attr_kind_name, der_fault_text, tst_kind_text, tst_fault_text, cms_fault_text, check_text, syntax_kind_name, policy_kind_name, shape_kind_name, shape_line, policy_line};
ghost use Rattle.session_text.specs.Lines.{Adds};

use crate::line::{LONGEST_LINE, add_number, add_words, end_line};
use crate::shape::ShapeKind;
use algorithm_policy::PolicyKind;
use civil_moment::TimeFault;
use cms_signed::{AttrKind, CmsFault};
use der_values::{DerFault, DerKind};
use evidence_syntax::SyntaxKind;
use std::alloc::AllocError;
use token_check::Check;
use tst_info::{TstFault, TstKind};

fn der_kind_name(kind: DerKind) -> &'static [u8]
    ensures name { result.now ≡ der_kind_name kind }
    ensures most { length result.now ≤ 20 }
{
    match kind {
        DerKind::Truncated => b"truncated",
        DerKind::Indefinite => b"indefinite",
        DerKind::LongForm => b"longform",
        DerKind::HighTag => b"hightag",
        DerKind::NotMinimal => b"notminimal",
        DerKind::Trailing => b"trailing",
        DerKind::WrongTag => b"wrongtag",
        DerKind::BadValue => b"badvalue",
    }
}

fn time_fault_name(fault: TimeFault) -> &'static [u8]
    ensures name { result.now ≡ time_fault_name fault }
    ensures most { length result.now ≤ 20 }
{
    match fault {
        TimeFault::Shape => b"shape",
        TimeFault::Fraction => b"fraction",
        TimeFault::Range => b"range",
        TimeFault::Memory => b"memory",
    }
}

fn attr_kind_name(kind: AttrKind) -> &'static [u8]
    ensures name { result.now ≡ attr_kind_name kind }
    ensures most { length result.now ≤ 20 }
{
    match kind {
        AttrKind::ContentType => b"contenttype",
        AttrKind::MessageDigest => b"messagedigest",
        AttrKind::SigningCertificate => b"signingcertificate",
    }
}

pub(crate) fn syntax_kind_name(kind: SyntaxKind) -> &'static [u8]
    ensures name { result.now ≡ syntax_kind_name kind }
    ensures most { length result.now ≤ 20 }
{
    match kind {
        SyntaxKind::Der(kind) => der_kind_name(kind),
        SyntaxKind::Version => b"version",
        SyntaxKind::Empty => b"empty",
        SyntaxKind::ValueLength => b"valuelength",
        SyntaxKind::TooMany => b"toomany",
        SyntaxKind::TooLong => b"toolong",
    }
}

pub(crate) fn policy_kind_name(kind: PolicyKind) -> &'static [u8]
    ensures name { result.now ≡ policy_kind_name kind }
    ensures most { length result.now ≤ 20 }
{
    match kind {
        PolicyKind::Header => b"header",
        PolicyKind::Form => b"form",
        PolicyKind::Name => b"name",
        PolicyKind::Hex => b"hex",
        PolicyKind::Sid => b"sid",
        PolicyKind::Key => b"key",
        PolicyKind::Cert => b"cert",
        PolicyKind::Date => b"date",
        PolicyKind::Order => b"order",
        PolicyKind::Twice => b"twice",
        PolicyKind::TooMany => b"toomany",
    }
}

fn shape_kind_name(kind: ShapeKind) -> &'static [u8]
    ensures name { result.now ≡ shape_kind_name kind }
    ensures most { length result.now ≤ 20 }
{
    match kind {
        ShapeKind::Word => b"word",
        ShapeKind::Number => b"number",
        ShapeKind::Limit => b"limit",
        ShapeKind::Moment => b"moment",
        ShapeKind::Cut => b"cut",
        ShapeKind::Mark => b"mark",
    }
}

// A name, and one behind it.
fn add_both(out: &mut Vec<u8>, name: &[u8], other: &[u8]) -> Result<(), AllocError>
    ensures { Adds (name.now ++ other.now) (length name.now + length other.now) out.old out.new result }
{
    add_words(out, name)?;
    add_words(out, other)
}

// A place, and what stands there.
fn add_at(out: &mut Vec<u8>, place: u64, name: &[u8]) -> Result<(), AllocError>
    requires { length name.now ≤ 20 }
    ensures { Adds (decimal place ++ 32 ∷ name.now) 41 out.old out.new result }
{
    add_number(out, place)?;
    add_words(out, b" ")?;
    add_words(out, name)
}

fn add_der_fault(out: &mut Vec<u8>, fault: &DerFault) -> Result<(), AllocError>
    ensures { Adds (der_fault_text fault.now) 41 out.old out.new result }
{
    add_at(out, fault.place, der_kind_name(fault.kind))
}

fn add_tst_kind(out: &mut Vec<u8>, kind: TstKind) -> Result<(), AllocError>
    ensures { Adds (tst_kind_text kind) 25 out.old out.new result }
{
    match kind {
        TstKind::Der(kind) => add_both(out, b"der ", der_kind_name(kind)),
        TstKind::Version => add_words(out, b"version"),
        TstKind::Time(fault) => add_both(out, b"time ", time_fault_name(fault)),
    }
}

fn add_tst_fault(out: &mut Vec<u8>, fault: &TstFault) -> Result<(), AllocError>
    ensures { Adds (tst_fault_text fault.now) 46 out.old out.new result }
{
    add_number(out, fault.place)?;
    add_words(out, b" ")?;
    add_tst_kind(out, fault.kind)
}

fn add_cms_fault(out: &mut Vec<u8>, fault: &CmsFault) -> Result<(), AllocError>
    ensures { Adds (cms_fault_text fault.now) 45 out.old out.new result }
{
    match fault {
        CmsFault::Der(fault) => {
            add_words(out, b"der ")?;
            add_der_fault(out, fault)
        }
        CmsFault::NotSignedData => add_words(out, b"notsigneddata"),
        CmsFault::Version => add_words(out, b"version"),
        CmsFault::ContentType => add_words(out, b"contenttype"),
        CmsFault::Signers(count) => {
            add_words(out, b"signers ")?;
            add_number(out, u64::from(*count))
        }
        CmsFault::SignerVersion => add_words(out, b"signerversion"),
        CmsFault::DigestAlg => add_words(out, b"digestalg"),
        CmsFault::AttrOrder => add_words(out, b"attrorder"),
        CmsFault::DoubleAttr(kind) => add_both(out, b"doubleattr ", attr_kind_name(*kind)),
        CmsFault::MissingAttr(kind) => add_both(out, b"missingattr ", attr_kind_name(*kind)),
        CmsFault::SignatureAlg => add_words(out, b"signaturealg"),
    }
}

/// Adds the text of a check that failed.
pub(crate) fn add_check(out: &mut Vec<u8>, check: &Check) -> Result<(), AllocError>
    ensures { Adds (check_text check.now) 50 out.old out.new result }
{
    match check {
        Check::TooLong => add_words(out, b"toolong"),
        Check::Cms(fault) => {
            add_words(out, b"cms ")?;
            add_cms_fault(out, fault)
        }
        Check::Tst(fault) => {
            add_words(out, b"tst ")?;
            add_tst_fault(out, fault)
        }
        Check::HashUnknown => add_words(out, b"hashunknown"),
        Check::UnknownSigner => add_words(out, b"unknownsigner"),
        Check::CertHash => add_words(out, b"certhash"),
        Check::MessageDigest => add_words(out, b"messagedigest"),
        Check::BadSignature => add_words(out, b"badsignature"),
    }
}

// A line: a name, a number and a name. The room is taken first: what follows can't be refused.
fn write_fault(out: &mut Vec<u8>, name: &[u8], number: u64, kind: &[u8]) -> Result<(), AllocError>
    requires name { length name.now ≤ 20 }
    requires kind { length kind.now ≤ 20 }
    ensures ok { OnOk result
        (out.new.items ≡ out.old.items ++ (name.now ++ decimal number ++ 32 ∷ kind.now ++ 10 ∷ [])) }
    ensures err { OnErr result (out.new.items ≡ out.old.items) }
{
    out.reserve(LONGEST_LINE)?;
    add_words(out, name)?;
    add_at(out, number, kind)?;
    end_line(out)
}

/// Adds the line that says why an input is not of its form. An Err leaves the text as it was.
pub fn write_shape_fault(out: &mut Vec<u8>, place: u64, kind: ShapeKind) -> Result<(), AllocError>
    ensures ok { OnOk result (out.new.items ≡ out.old.items ++ shape_line place kind) }
    ensures err { OnErr result (out.new.items ≡ out.old.items) }
{
    write_fault(out, b"shape ", place, shape_kind_name(kind))
}

/// Adds the line that says why a text is no policy. An Err leaves the text as it was.
pub fn write_policy_fault(
    out: &mut Vec<u8>,
    number: u32,
    kind: PolicyKind,
) -> Result<(), AllocError>
    ensures ok { OnOk result (out.new.items ≡ out.old.items ++ policy_line number kind) }
    ensures err { OnErr result (out.new.items ≡ out.old.items) }
{
    write_fault(
        out,
        b"badpolicy ",
        u64::from(number),
        policy_kind_name(kind),
    )
}
