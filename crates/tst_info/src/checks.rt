ghost use Rattle.std.specs.Prelude.{IfOk, IfSome};
ghost use Rattle.std.specs.Option.{option_map};
ghost use Rattle.civil_moment.specs.Moment.{Text};
ghost use Rattle.der_values.specs.Steps.{Gives};
ghost use Rattle.der_values.specs.Next.{seen, IsValue};
ghost use Rattle.der_values.specs.Shape.{is_integer, is_oid, checked};
ghost use Rattle.der_values.specs.Reading.{check_optional};
ghost use Rattle.tst_info.specs.Checks.{version_at, true_of, time_of, true_alone, stamp_checks};

use crate::fault::{TstFault, TstKind};
use civil_moment::{Moment, read_generalized};
use der_values::{DerKind, Tlv, read_boolean, read_integer, read_oid};

// Version 1 is the only one.
#[tactic(auto, unfolding(der_values::specs::Typed::version_of))]
pub(crate) fn check_version(t: &Tlv<'_>) -> Result<(), TstFault>
    requires { IsValue t.now }
    ensures { Gives (λ u. u) result (version_at (seen t.now)) }
{
    match read_integer(t)? {
        [1] => Ok(()),
        _ => Err(TstFault::at(t.place, TstKind::Version)),
    }
}

// The moment that a generalized time says.
#[tactic(auto, using(civil_moment::proofs::FirstFault::no_fault), unfolding(crate::specs::Checks::time_of))]
pub(crate) fn time(t: &Tlv<'_>) -> Result<Moment, TstFault>
    ensures read { Gives (λ moment. tt) result (time_of (seen t.now)) }
    ensures said { IfOk result (λ moment. Text t.now.content.now moment) }
{
    match read_generalized(t.content) {
        Ok(moment) => Ok(moment),
        Err(fault) => Err(TstFault::at(t.place, TstKind::Time(fault))),
    }
}

#[tactic(auto, unfolding(crate::specs::Checks::true_of))]
fn check_true(t: &Tlv<'_>) -> Result<(), TstFault>
    requires { IsValue t.now }
    ensures { Gives (λ u. u) result (true_of (seen t.now)) }
{
    if read_boolean(t)? {
        Ok(())
    } else {
        Err(TstFault::at(t.place, TstKind::Der(DerKind::BadValue)))
    }
}

// A BOOLEAN that is FALSE by default says TRUE where it stands.
pub(crate) fn check_flag(t: &Option<Tlv<'_>>) -> Result<(), TstFault>
    requires { IfSome t.now IsValue }
    ensures { Gives (λ u. u) result (check_optional stamp_checks (checked true_alone) tt (option_map seen t.now)) }
{
    match t {
        Some(t) => check_true(t),
        None => Ok(()),
    }
}

pub(crate) fn check_nonce(t: &Option<Tlv<'_>>) -> Result<(), TstFault>
    requires { IfSome t.now IsValue }
    ensures { Gives (λ u. u) result (check_optional stamp_checks is_integer tt (option_map seen t.now)) }
{
    match t {
        Some(t) => {
            read_integer(t)?;
            Ok(())
        }
        None => Ok(()),
    }
}

pub(crate) fn check_policy(t: &Option<Tlv<'_>>) -> Result<(), TstFault>
    requires { IfSome t.now IsValue }
    ensures { Gives (λ u. u) result (check_optional stamp_checks is_oid tt (option_map seen t.now)) }
{
    match t {
        Some(t) => {
            read_oid(t)?;
            Ok(())
        }
        None => Ok(()),
    }
}
