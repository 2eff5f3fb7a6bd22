ghost use Rattle.std.specs.Prelude.{◌≡◌, IfOk};
ghost use Rattle.der_values.specs.Steps.{Gives};
ghost use Rattle.der_values.specs.Next.{seen, IsValue};
ghost use Rattle.evidence_syntax.specs.Checks.{version_at, filled_of, hash_length_of, count_of};

use crate::fault::{SyntaxFault, SyntaxKind};
use der_values::{Tlv, read_integer};
use hash_kit::HashValue;
use std::alloc::Global;

/// The most archive time-stamps of a record.
pub const MOST_STAMPS: u64 = 200;

/// What is carried along while a record is read: whence memory comes, and the number of archive time-stamps so far.
#[derive(Clone, Copy)]
pub(crate) struct SoFar {
    pub alloc: Global,
    pub stamps: u64,
}

// Version 1 is the only one.
#[tactic(auto, unfolding(der_values::specs::Typed::version_of))]
pub(crate) fn check_version(t: &Tlv<'_>) -> Result<(), SyntaxFault>
    requires { IsValue t.now }
    ensures { Gives (λ u. u) result (version_at (seen t.now)) }
{
    match read_integer(t)? {
        [1] => Ok(()),
        _ => Err(SyntaxFault::at(t.place, SyntaxKind::Version)),
    }
}

#[tactic(auto, unfolding(crate::specs::Checks::filled_of))]
pub(crate) fn check_filled(t: &Tlv<'_>) -> Result<(), SyntaxFault>
    ensures { Gives (λ u. u) result (filled_of (seen t.now)) }
{
    if t.content.is_empty() {
        return Err(SyntaxFault::at(t.place, SyntaxKind::Empty));
    }
    Ok(())
}

/// The value of a reduced hash tree.
#[tactic(auto, unfolding(crate::specs::Checks::hash_length_of))]
pub(crate) fn hash_value(t: &Tlv<'_>) -> Result<HashValue, SyntaxFault>
    ensures checked { Gives (λ v. tt) result (hash_length_of (seen t.now)) }
    ensures value { IfOk result (λ v. v ≡ t.now.content.now) }
{
    if t.content.is_empty() || t.content.len() > 64 {
        return Err(SyntaxFault::at(t.place, SyntaxKind::ValueLength));
    }
    Ok(HashValue::of(t.content))
}

/// The number of archive time-stamps with this one.
#[tactic(auto, unfolding(crate::specs::Checks::count_of))]
pub(crate) fn count(stamps: u64, t: &Tlv<'_>) -> Result<u64, SyntaxFault>
    ensures { Gives (λ n. n) result (count_of stamps (seen t.now)) }
{
    if stamps >= MOST_STAMPS {
        return Err(SyntaxFault::at(t.place, SyntaxKind::TooMany));
    }
    Ok(stamps + 1)
}
