// The texts of refusals.
ghost use Rattle.std.specs.Prelude.{◌≡◌, ◌+◌, ◌∷◌, [], ◌++◌, length, decimal, OnOk};
ghost use Rattle.archive_chain.specs.declared.refusal.Refusal.TheVariants.{BadPolicy, TokenEarly};
ghost use Rattle.session_text.specs.Lines.{Adds};
ghost use Rattle.session_text.specs.RefusalTexts.{full_text, AddsRefusal};

use crate::fault_text::{add_check, policy_kind_name};
use crate::line::{add_hex, add_moment, add_number, add_words};
use crate::verdict_text::add_numbered;
use algorithm_policy::PolicyKind;
use archive_chain::{Full, Refusal};
use civil_moment::Moment;
use std::alloc::AllocError;

/// Adds which limit would be passed, and the number that would result.
pub fn add_full(out: &mut Vec<u8>, full: Full) -> Result<(), AllocError>
    ensures { Adds (full_text full) 30 out.old out.new result }
{
    match full {
        Full::Groups(number) => add_named(out, b"groups ", number),
        Full::Documents(number) => add_named(out, b"documents ", number),
        Full::Bytes(number) => add_named(out, b"bytes ", number),
        Full::Journal(number) => add_named(out, b"journal ", number),
    }
}

// A name, and a number behind it.
fn add_named(out: &mut Vec<u8>, name: &[u8], number: u64) -> Result<(), AllocError>
    ensures { Adds (name.now ++ decimal number) (length name.now + 20) out.old out.new result }
{
    add_words(out, name)?;
    add_number(out, number)
}

/// Adds the text of a refusal.
pub fn add_refusal(out: &mut Vec<u8>, refusal: &Refusal) -> Result<(), AllocError>
    ensures { OnOk result (AddsRefusal out.old.items out.new.items refusal.now) }
{
    match refusal {
        Refusal::Limit(full) => {
            add_words(out, b"limit ")?;
            add_full(out, *full)
        }
        Refusal::Count { count, pending } => {
            add_numbered(out, b"count", &[u64::from(*count), u64::from(*pending)])
        }
        Refusal::NotLive { cohort } => add_numbered(out, b"notlive", &[u64::from(*cohort)]),
        Refusal::OtherHash { cohort } => add_numbered(out, b"otherhash", &[u64::from(*cohort)]),
        Refusal::ChainFull { id } => add_numbered(out, b"chainfull", &[u64::from(*id)]),
        Refusal::Token(check) => {
            add_words(out, b"token ")?;
            add_check(out, check)
        }
        Refusal::Imprint => add_words(out, b"imprint"),
        Refusal::TokenEarly { token, covered } => add_token_early(out, token, covered),
        Refusal::BadPolicy { line, kind } => add_bad_policy(out, *line, *kind),
        Refusal::PolicyDrops { name } => {
            add_words(out, b"policydrops ")?;
            add_hex(out, name.as_slice())
        }
        Refusal::Memory => add_words(out, b"memory"),
    }
}

fn add_token_early(out: &mut Vec<u8>, token: &Moment, covered: &Moment) -> Result<(), AllocError>
    ensures { OnOk result (AddsRefusal out.old.items out.new.items (TokenEarly token.now covered.now)) }
{
    add_words(out, b"tokenearly ")?;
    add_moment(out, token)?;
    add_words(out, b" ")?;
    add_moment(out, covered)
}

fn add_bad_policy(out: &mut Vec<u8>, line: u32, kind: PolicyKind) -> Result<(), AllocError>
    ensures { OnOk result (AddsRefusal out.old.items out.new.items (BadPolicy line kind)) }
{
    add_numbered(out, b"badpolicy", &[u64::from(line)])?;
    add_words(out, b" ")?;
    add_words(out, policy_kind_name(kind))
}
