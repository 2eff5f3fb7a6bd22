ghost use Rattle.std.specs.Prelude.{◌≡◌, not, find, Some, None, MatchResult};
ghost use Rattle.std.specs.List.{list_any};
ghost use Rattle.std.specs.Option.{option_map};
ghost use Rattle.algorithm_policy.specs.Content.{is_same, first_dropped};

use crate::policy::Policy;
use crate::signer::Signer;

/// That the new policy has each authority of the old one, with the same identifier, key and certificate; else the first
/// authority of the old one that it lacks or has with others.
pub fn keeps<'a>(old: &'a Policy, new: &Policy) -> Result<(), &'a Signer>
    ensures { MatchResult result (λ _. first_dropped old.now new.now ≡ None)
        (λ signer. first_dropped old.now new.now ≡ Some signer.now) }
{
    match first_dropped(old.signers(), new) {
        Some(signer) => Err(signer),
        None => Ok(()),
    }
}

// The first of these authorities that the policy doesn't have.
fn first_dropped<'a>(signers: &'a [Signer], policy: &Policy) -> Option<&'a Signer>
    ensures { option_map (λ signer. signer.now) result
        ≡ find (λ signer. not (list_any (is_same signer) policy.now.signers)) signers.now }
{
    signers.iter().find(|signer| !has(policy, signer))
}

// Whether the policy has this authority, whatever its end.
fn has(policy: &Policy, signer: &Signer) -> bool
    ensures { result ≡ list_any (is_same signer.now) policy.now.signers }
{
    policy.signers().iter().any(|other| is_same(signer, other))
}

fn is_same(first: &Signer, second: &Signer) -> bool
    ensures { result ≡ is_same first.now second.now }
{
    first.name.as_slice() == second.name.as_slice()
        && first.sid.as_slice() == second.sid.as_slice()
        && first.key == second.key
        && first.cert == second.cert
}
