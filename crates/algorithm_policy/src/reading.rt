ghost use Rattle.std.specs.Prelude.{◌≡◌, ◌<◌, ◌⊎◌, ℕ, length, [], Some, Ok, Err, IfOk, IfErr, IfSome, IfNone};
ghost use Rattle.algorithm_policy.specs.Content.{Content};
ghost use Rattle.algorithm_policy.specs.Text.{PolicyText};
ghost use Rattle.algorithm_policy.specs.Fault.{parts, first_fault, fault_in};
ghost use Rattle.algorithm_policy.specs.Inside.{Names, BlamesFirst, TakesLine, SayPolicy, IsBehindHeader, subjects};
ghost use Rattle.algorithm_policy.specs.declared.fault.PolicyKind.{PolicyKind};
ghost use Rattle.algorithm_policy.specs.declared.fault.PolicyKind.TheVariants.{Header};
ghost use Rattle.algorithm_policy.specs.declared.fault.PolicyFault.TheVariants.{At, Memory};

use crate::fault::{LineFault, PolicyFault, PolicyKind};
use crate::line::{HEADER, split_once};
use crate::policy::Policy;
use crate::policy_line::read_line;
use std::alloc::Global;

/// The most bytes of a policy's text where one is taken in. To read it no limit is asked.
pub const LONGEST_POLICY: u64 = 262_144;

/// The policy that the text says, or the first fault: its lines are tried in turn, and each for the kinds of fault in
/// their order.
pub fn read_policy(alloc: Global, text: &[u8]) -> Result<Policy, PolicyFault>
    // What is read is what the text says, and what it says is read, unless memory runs out.
    ensures found { IfOk result (PolicyText text.now) }
    ensures only { (policy : Content) → PolicyText text.now policy
        → (result ≡ Ok policy) ⊎ (result ≡ Err Memory) }

    // The fault that is answered is the first, and the first is answered, unless memory runs out.
    ensures fault { (line : ℕ) (kind : PolicyKind) → result ≡ Err (At line kind)
        → first_fault text.now ≡ Some (line, kind) }
    ensures refused { (line : ℕ) (kind : PolicyKind) → first_fault text.now ≡ Some (line, kind)
        → (result ≡ Err (At line kind)) ⊎ (result ≡ Err Memory) }
{
    read(alloc, text)
}

fn read(alloc: Global, text: &[u8]) -> Result<Policy, PolicyFault>
    ensures found { IfOk result (PolicyText text.now) }
    ensures fault { IfErr result (λ f. Names f (first_fault text.now)) }
{
    match behind_header(text) {
        Some(lines) => read_lines(alloc, lines),
        None => Err(PolicyFault::At {
            line: 1,
            kind: PolicyKind::Header,
        }),
    }
}

// What stands behind the first line, which has to be the header.
fn behind_header(text: &[u8]) -> Option<&[u8]>
    ensures found { IfSome result (λ lines. IsBehindHeader text.now lines.now) }
    ensures none { IfNone result (first_fault text.now ≡ Some (1, Header)) }
{
    let (line, lines) = split_once(text, b'\n')?;
    if line == HEADER { Some(lines) } else { None }
}

// The policy that the lines behind the first say.
fn read_lines(alloc: Global, lines: &[u8]) -> Result<Policy, PolicyFault>
    ensures found { IfOk result (SayPolicy lines.now) }
    ensures fault { IfErr result (λ f. Names f (fault_in 2 [] (parts 10 lines.now))) }
{
    let mut policy = Policy::empty(alloc)?;
    let mut left = lines;
    let mut number = 2;
    while !left.is_empty() {
        left = match add_line(alloc, &mut policy, left) {
            Ok(after) => after,
            Err(fault) => return Err(fault.at(number)),
        };
        number += 1;
    }
    Ok(policy)
}

// Takes the first line into the policy, and answers what stands behind it.
fn add_line<'a>(alloc: Global, policy: &mut Policy, left: &'a [u8]) -> Result<&'a [u8], LineFault>
    requires { 0 < length left.now }
    ensures taken { IfOk result (λ after. TakesLine policy.old policy.new left.now after.now) }
    ensures shorter { IfOk result (λ after. length after.now < length left.now) }
    ensures fault { IfErr result (λ f. BlamesFirst f (subjects policy.old) left.now) }
{
    let Some((line, after)) = split_once(left, b'\n') else {
        return Err(LineFault::Is(PolicyKind::Form));
    };
    let said = match read_line(alloc, line) {
        Ok(said) => said,
        Err(fault) => return Err(fault),
    };
    match policy.add(said) {
        Ok(()) => Ok(after),
        Err(fault) => Err(fault),
    }
}
