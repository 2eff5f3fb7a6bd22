// The line of a verdict.
ghost use Rattle.std.specs.Prelude.{◌≡◌, ◌≤◌, [], ◌∷◌, length, OnOk, OnErr};
ghost use Rattle.evidence_verify.specs.declared.verdict.Verdict.TheVariants.{Early, Lapsed};
ghost use Rattle.session_text.specs.Verdicts.{numbered, cause_name, uncovered_text, AddsVerdict};
ghost use Rattle.session_text.specs.Lines.{Adds};
ghost use Rattle.session_text.specs.Inside.{AddsVerdictWords};

use crate::fault_text::{add_check, syntax_kind_name};
use crate::line::{LONGEST_LINE, add_moment, add_number, add_numbers, add_words, end_line};
use civil_moment::Moment;
use evidence_verify::{Cause, Lapse, Verdict};
use std::alloc::AllocError;

/// Adds the line of a verdict to a text. An Err leaves the text as it was.
pub fn write_verdict(out: &mut Vec<u8>, verdict: &Verdict) -> Result<(), AllocError>
    ensures ok { OnOk result (AddsVerdict out.old.items out.new.items verdict.now) }
    ensures err { OnErr result (out.new.items ≡ out.old.items) }
{
    // The room is taken first: what follows can't be refused.
    out.reserve(LONGEST_LINE)?;
    add_verdict(out, verdict)?;
    end_line(out)
}

fn add_verdict(out: &mut Vec<u8>, verdict: &Verdict) -> Result<(), AllocError>
    ensures { AddsVerdictWords verdict.now out.old out.new result }
{
    match verdict {
        Verdict::Valid => add_words(out, b"valid"),
        Verdict::Syntax { place, kind } => {
            add_numbered(out, b"syntax", &[*place])?;
            add_words(out, b" ")?;
            add_words(out, syntax_kind_name(*kind))
        }
        Verdict::BadStamp {
            chain,
            stamp,
            check,
        } => {
            add_of_stamp(out, b"stamp", *chain, *stamp)?;
            add_words(out, b" ")?;
            add_check(out, check)
        }
        Verdict::MixedHash { chain, stamp } => add_of_stamp(out, b"hash", *chain, *stamp),
        Verdict::OutOfOrder { chain, stamp } => add_of_stamp(out, b"order", *chain, *stamp),
        Verdict::NotCovered {
            chain,
            stamp,
            document,
        } => add_uncovered(out, *chain, *stamp, *document),
        Verdict::NotWhole { chain } => add_numbered(out, b"notwhole", &[u64::from(*chain)]),
        Verdict::Early { moment, last } => add_early(out, moment, last),
        Verdict::Lapsed(lapse) => add_lapsed(out, lapse),
    }
}

// A name, and numbers behind it.
pub(crate) fn add_numbered(
    out: &mut Vec<u8>,
    name: &[u8],
    numbers: &[u64],
) -> Result<(), AllocError>
    requires name { length name.now ≤ 20 }
    requires numbers { length numbers.now ≤ 2 }
    ensures { Adds (numbered name.now numbers.now) 62 out.old out.new result }
{
    add_words(out, name)?;
    add_numbers(out, numbers)
}

// A name, and where a time-stamp stands.
fn add_of_stamp(out: &mut Vec<u8>, name: &[u8], chain: u32, stamp: u32) -> Result<(), AllocError>
    requires { length name.now ≤ 20 }
    ensures { Adds (numbered name.now (chain ∷ stamp ∷ [])) 62 out.old out.new result }
{
    add_numbered(out, name, &[u64::from(chain), u64::from(stamp)])
}

fn add_uncovered(
    out: &mut Vec<u8>,
    chain: u32,
    stamp: u32,
    document: Option<u32>,
) -> Result<(), AllocError>
    ensures { Adds (uncovered_text chain stamp document) 83 out.old out.new result }
{
    add_of_stamp(out, b"uncovered", chain, stamp)?;
    add_words(out, b" ")?;
    match document {
        Some(document) => add_number(out, u64::from(document)),
        None => add_words(out, b"-"),
    }
}

fn add_early(out: &mut Vec<u8>, moment: &Moment, last: &Moment) -> Result<(), AllocError>
    ensures { AddsVerdictWords (Early moment.now last.now) out.old out.new result }
{
    add_words(out, b"early ")?;
    add_moment(out, moment)?;
    add_words(out, b" ")?;
    add_moment(out, last)
}

fn add_lapsed(out: &mut Vec<u8>, lapse: &Lapse) -> Result<(), AllocError>
    ensures { AddsVerdictWords (Lapsed lapse.now) out.old out.new result }
{
    add_of_stamp(out, b"lapsed", lapse.chain, lapse.stamp)?;
    add_words(out, b" ")?;
    add_words(out, cause_name(lapse.cause))?;
    add_words(out, b" ")?;
    add_moment(out, &lapse.end)
}

fn cause_name(cause: Cause) -> &'static [u8]
    ensures name { result.now ≡ cause_name cause }
    ensures most { length result.now ≤ 4 }
{
    match cause {
        Cause::Key => b"key",
        Cause::Hash => b"hash",
    }
}
