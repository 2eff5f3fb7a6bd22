ghost use Rattle.std.specs.Prelude.{◌≡◌, Some, None, IfOk, IfErr, IfNone, OnOk, OnErr, Contains};
ghost use Rattle.std.specs.List.{list_all, list_any};
ghost use Rattle.std.specs.Option.{option_map};
ghost use Rattle.std.specs.Str.{bytes_eq};
ghost use Rattle.algorithm_policy.specs.Content.{IsSigner, IsPolicy, is_below, empty, named_end, hash_end, target, signer_of};
ghost use Rattle.algorithm_policy.specs.Change.{with_end, with_signer, signer_fault, refusal};
ghost use Rattle.algorithm_policy.specs.Inside.{Blames, Adds, IsPolicyLine, names_from, names_later, MayCome, hash_fault, later_of, next_fault};
ghost use Rattle.algorithm_policy.specs.declared.signer.Signer.{Signer};
ghost use Rattle.algorithm_policy.specs.declared.fault.LineFault.TheVariants.{Memory};
ghost use Rattle.algorithm_policy.specs.declared.policy_line.PolicyLine.TheVariants.{Hash, Authority};

use crate::fault::{LineFault, PolicyKind};
use crate::policy_line::PolicyLine;
use crate::signer::Signer;
use civil_moment::{Moment, is_before};
use hash_kit::HashAlg;
use std::alloc::{AllocError, Global};
use std::cmp::Ordering;
use std::marker::Model;

/// The end of a hash algorithm that the policy doesn't name.
const EPOCH: Moment = Moment {
    seconds: 0,
    nanos: 0,
};

/// The most authorities of a policy.
const MOST_SIGNERS: usize = 64;

/// Until when each hash algorithm and each authority is good. Contracts see the end of each algorithm, if it is named,
/// and the list of the authorities: at most 64, strictly ascending by name, of which no two have one identifier.
#[derive(Debug, Drop)]
pub struct Policy {
    sha256: Option<Moment>,
    sha384: Option<Moment>,
    sha512: Option<Moment>,
    signers: Vec<Signer>,
}

impl Model for Policy {
    ghost use Rattle.algorithm_policy.specs.Content.{Content, IsPolicy};

    ghost Value = { Content };

    ghost view = { λ p. record {
      sha256 = p.sha256;
      sha384 = p.sha384;
      sha512 = p.sha512;
      signers = p.signers.items;
    } };

    ghost invariant = { λ p. IsPolicy (record {
      sha256 = p.sha256;
      sha384 = p.sha384;
      sha512 = p.sha512;
      signers = p.signers.items;
    }) };
}

impl Policy {
    /// The policy that names nothing.
    pub fn empty(alloc: Global) -> Result<Policy, AllocError>
        ensures value { IfOk result (λ policy. policy ≡ empty) }
        ensures valid { OnOk result (IsPolicy empty) }
    {
        Ok(Policy {
            sha256: None,
            sha384: None,
            sha512: None,
            signers: Vec::new(alloc),
        })
    }

    /// The end of a hash algorithm, which is the begin of 1970 for one that the policy doesn't name.
    pub fn hash_end(&self, alg: HashAlg) -> Moment
        ensures { result ≡ hash_end self.now alg }
    {
        self.named_end(alg).unwrap_or(EPOCH)
    }

    /// The end of a hash algorithm, if it is named.
    pub(crate) fn named_end(&self, alg: HashAlg) -> Option<Moment>
        ensures { result ≡ named_end self.now alg }
    {
        match alg {
            HashAlg::Sha256 => self.sha256,
            HashAlg::Sha384 => self.sha384,
            HashAlg::Sha512 => self.sha512,
        }
    }

    /// The authorities, ascending by name.
    pub(crate) fn signers(&self) -> &[Signer]
        ensures signers { result.now ≡ self.now.signers }
        ensures valid { IsPolicy self.now }
    {
        self.signers.as_slice()
    }

    /// The end of the authority of this identifier, or None where there is none.
    pub fn key_end(&self, sid: &[u8]) -> Option<Moment>
        ensures value { result ≡ option_map (λ signer. signer.end) (signer_of self.now sid.now) }
        ensures the_one { (signer : Signer) → Contains self.now.signers signer → signer.sid ≡ sid.now
            → result ≡ Some signer.end }
    {
        match self.signer(sid) {
            Some(signer) => Some(signer.end),
            None => None,
        }
    }

    /// The authority of this identifier, or None where there is none.
    pub fn signer(&self, sid: &[u8]) -> Option<&Signer>
        ensures value { option_map (λ signer. signer.now) result ≡ signer_of self.now sid.now }
        ensures the_one { (signer : Signer) → Contains self.now.signers signer → signer.sid ≡ sid.now
            → signer_of self.now sid.now ≡ Some signer }
    {
        self.signers
            .iter()
            .find(|signer| signer.sid.as_slice() == sid)
    }

    /// The hash algorithm that ends last, the first of SHA-256, SHA-384 and SHA-512 in a tie.
    pub fn target(&self) -> HashAlg
        ensures { result ≡ target self.now }
    {
        let first = self.later(HashAlg::Sha256, HashAlg::Sha384);
        self.later(first, HashAlg::Sha512)
    }

    // The second algorithm where it ends later, else the first.
    fn later(&self, first: HashAlg, second: HashAlg) -> HashAlg
        ensures { result ≡ later_of self.now first second }
    {
        if is_before(&self.hash_end(first), &self.hash_end(second)) {
            second
        } else {
            first
        }
    }

    /// The same with this end of a hash algorithm.
    pub fn ending(self, alg: HashAlg, end: Moment) -> Policy
        ensures { result ≡ with_end self alg end }
    {
        let mut policy = self;
        policy.set_end(alg, end);
        policy
    }

    /// The same with one authority more, behind the others. Else it stays as it is, and the fault is the one that the
    /// authority's line would have behind the lines of the policy (Order, Twice or TooMany), or want of memory.
    pub fn trusting(self, signer: Signer) -> Result<Policy, (Policy, LineFault)>
        requires { IsSigner signer }
        ensures ok { IfOk result (λ policy. policy ≡ with_signer self signer) }
        ensures placed { OnOk result (signer_fault self signer.name signer.sid ≡ None) }
        ensures fault { IfErr result (λ e. (e.0 ≡ self)
            × (e.1 ≡ refusal (signer_fault self signer.name signer.sid))) }
    {
        let mut policy = self;
        match policy.add_signer(signer) {
            Ok(()) => Ok(policy),
            Err(fault) => Err((policy, fault)),
        }
    }

    /// Takes in what a line says, after all that the policy has.
    pub(crate) fn add(&mut self, line: PolicyLine) -> Result<(), LineFault>
        requires { IsPolicyLine line }
        ensures ok { OnOk result (Adds self.old self.new line) }
        ensures fault { IfErr result (λ f. Blames f (next_fault self.old line)) }
    {
        match line {
            PolicyLine::Hash(alg, end) => self.add_hash(alg, end),
            PolicyLine::Authority(signer) => self.add_signer(signer),
        }
    }

    fn add_hash(&mut self, alg: HashAlg, end: Moment) -> Result<(), LineFault>
        ensures ok { OnOk result (Adds self.old self.new (Hash alg end)) }
        ensures fault { IfErr result (λ f. Blames f (hash_fault self.old alg)) }
    {
        if self.names_from(alg) {
            return Err(LineFault::Is(PolicyKind::Order));
        }
        self.set_end(alg, end);
        Ok(())
    }

    // Whether this algorithm, a later one or an authority is named.
    fn names_from(&self, alg: HashAlg) -> bool
        ensures { result ≡ names_from self.now alg }
    {
        self.names_later(alg) || !self.signers.is_empty()
    }

    // Whether this algorithm or a later one is named.
    fn names_later(&self, alg: HashAlg) -> bool
        ensures { result ≡ names_later self.now alg }
    {
        match alg {
            HashAlg::Sha256 => {
                self.sha256.is_some() || self.sha384.is_some() || self.sha512.is_some()
            }
            HashAlg::Sha384 => self.sha384.is_some() || self.sha512.is_some(),
            HashAlg::Sha512 => self.sha512.is_some(),
        }
    }

    fn set_end(&mut self, alg: HashAlg, end: Moment)
        ensures value { self.new ≡ with_end self.old alg end }
        ensures valid { IsPolicy self.old × IsPolicy self.new }
    {
        match alg {
            HashAlg::Sha256 => self.sha256 = Some(end),
            HashAlg::Sha384 => self.sha384 = Some(end),
            HashAlg::Sha512 => self.sha512 = Some(end),
        }
    }

    fn add_signer(&mut self, signer: Signer) -> Result<(), LineFault>
        requires { IsSigner signer }
        ensures ok { OnOk result (Adds self.old self.new (Authority signer)) }
        ensures value { OnOk result (self.new ≡ with_signer self.old signer) }
        ensures placed { OnOk result (signer_fault self.old signer.name signer.sid ≡ None) }
        ensures same { OnErr result (self.new ≡ self.old) }
        ensures fault { IfErr result (λ f. f ≡ refusal (signer_fault self.old signer.name signer.sid)) }
    {
        match self.place_fault(&signer) {
            Some(kind) => Err(LineFault::Is(kind)),
            None => self.push_signer(signer),
        }
    }

    // What is wrong with the place of an authority behind all that the policy has.
    fn place_fault(&self, signer: &Signer) -> Option<PolicyKind>
        requires { IsSigner signer.now }
        ensures fault { result ≡ signer_fault self.now signer.now.name signer.now.sid }
        ensures free { IfNone result (MayCome self.now signer.now) }
    {
        if !self.ends_below(signer.name.as_slice()) {
            Some(PolicyKind::Order)
        } else if self.has_sid(signer.sid.as_slice()) {
            Some(PolicyKind::Twice)
        } else if self.signers.len() >= MOST_SIGNERS {
            Some(PolicyKind::TooMany)
        } else {
            None
        }
    }

    fn push_signer(&mut self, signer: Signer) -> Result<(), LineFault>
        requires { MayCome self.old signer }
        ensures ok { OnOk result (Adds self.old self.new (Authority signer)) }
        ensures value { OnOk result (self.new ≡ with_signer self.old signer) }
        ensures same { OnErr result (self.new ≡ self.old) }
        ensures full { IfErr result (λ f. f ≡ Memory) }
    {
        let Ok(()) = self.signers.push(signer) else {
            return Err(LineFault::Memory);
        };
        Ok(())
    }

    // Whether all names are below this one, which the last decides.
    fn ends_below(&self, name: &[u8]) -> bool
        ensures { result ≡ list_all (λ signer. is_below signer.name name.now) self.now.signers }
    {
        match self.signers.split_last() {
            Some((last, _)) => is_below(last.name.as_slice(), name),
            None => true,
        }
    }

    fn has_sid(&self, sid: &[u8]) -> bool
        ensures { result ≡ list_any (λ signer. bytes_eq signer.sid sid.now) self.now.signers }
    {
        self.signers
            .iter()
            .any(|signer| signer.sid.as_slice() == sid)
    }
}

// Whether the first byte string is below the second.
fn is_below(first: &[u8], second: &[u8]) -> bool
    ensures { result ≡ is_below first.now second.now }
{
    first.cmp(second) == Ordering::Less
}
