ghost use Rattle.std.specs.Prelude.{◌≡◌};
ghost use Rattle.archive_chain.specs.declared.refusal.Refusal.TheVariants.{Memory};

use algorithm_policy::PolicyKind;
use civil_moment::Moment;
use der_values::Bytes;
use std::alloc::AllocError;
use token_check::Check;

/// A limit that would be passed, with the number that would result.
#[derive(Clone, Copy, Debug, PartialEq, Eq)]
pub enum Full {
    /// Of groups: 65,536.
    Groups(u64),
    /// Of documents: 1,048,576.
    Documents(u64),
    /// Of the documents' bytes: 268,435,456.
    Bytes(u64),
    /// Of the journal's bytes. No archive in memory answers it.
    Journal(u64),
}

/// Why an archive doesn't take an entry. The causes are tried in this order.
#[derive(Debug, Drop)]
pub enum Refusal {
    /// A deposit passes a limit.
    Limit(Full),
    /// A Seal covers no group, more than 4,096, or more than are pending.
    Count { count: u32, pending: u32 },
    /// No group is of this cohort, the first such that is named.
    NotLive { cohort: u32 },
    /// The chain of this cohort has another hash than the time-stamp; it is the first such that is named.
    OtherHash { cohort: u32 },
    /// This group has 200 time-stamps; it is the first such group of the named cohorts.
    ChainFull { id: u32 },
    /// The token is not sound under the policy in force, for this check.
    Token(Check),
    /// The token stamps another value than the root of the entry's tree, or by another hash.
    Imprint,
    /// The token's time is before the latest of the tokens that it covers anew.
    TokenEarly { token: Moment, covered: Moment },
    /// The text says no policy, for this fault.
    BadPolicy { line: u32, kind: PolicyKind },
    /// The new policy has not this authority of the policy in force, or has it otherwise; it is the first such.
    PolicyDrops { name: Bytes },
    /// There was no memory.
    Memory,
}

impl From<AllocError> for Refusal {
    ghost from_gives = { λ _ refusal. refusal ≡ Memory };

    fn from(_error: AllocError) -> Refusal {
        Refusal::Memory
    }
}
