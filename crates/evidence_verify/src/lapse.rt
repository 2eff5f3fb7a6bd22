// The first time-stamp whose successor came too late.
ghost use Rattle.std.specs.Prelude.{◌≡◌, map};
ghost use Rattle.evidence_verify.specs.Marks.{until, ends_chain, lapse_by, key_lapse, hash_lapse, lapse_at, first_lapse};
ghost use Rattle.evidence_verify.specs.Lapse.{mark_seen};

use crate::mark::Mark;
use crate::verdict::{Cause, Lapse};
use algorithm_policy::Policy;
use civil_moment::{Moment, is_before};

/// The lapse of the first time-stamp whose successor did not come in time, by the marks of a record's time-stamps in their
/// order (RFC 4998, 5.3). For the last one the moment stands in the successor's place.
pub fn first_lapse(policy: &Policy, moment: Moment, marks: &[Mark<'_>]) -> Option<Lapse>
    ensures { result ≡ first_lapse policy.now moment (map mark_seen marks.now) }
{
    for number in 0..marks.len() {
        let later = &marks[number + 1..];
        if let Some(lapse) = lapse_at(policy, moment, &marks[number], later) {
            return Some(lapse);
        }
    }
    None
}

// The lapse of a time-stamp before these: its key is asked before the hash of its chain.
fn lapse_at(policy: &Policy, moment: Moment, mark: &Mark<'_>, later: &[Mark<'_>]) -> Option<Lapse>
    ensures { result ≡ lapse_at policy.now moment (mark_seen mark.now) (map mark_seen later.now) }
{
    let time = until(moment, later);
    if let Some(lapse) = key_lapse(mark, time, policy.key_end(mark.sid)) {
        return Some(lapse);
    }
    hash_lapse(mark, time, ends_chain(later), policy.hash_end(mark.alg))
}

// The time of the successor, or the moment.
fn until(moment: Moment, later: &[Mark<'_>]) -> Moment
    ensures { result ≡ until moment (map mark_seen later.now) }
{
    match later.first() {
        Some(successor) => successor.time,
        None => moment,
    }
}

// Whether no later time-stamp is of the same chain.
fn ends_chain(later: &[Mark<'_>]) -> bool
    ensures { result ≡ ends_chain (map mark_seen later.now) }
{
    match later.first() {
        Some(successor) => successor.stamp == 0,
        None => true,
    }
}

fn key_lapse(mark: &Mark<'_>, time: Moment, end: Option<Moment>) -> Option<Lapse>
    ensures { result ≡ key_lapse (mark_seen mark.now) time end }
{
    let end = end?;
    if is_before(&time, &end) {
        None
    } else {
        Some(lapse_by(mark, Cause::Key, end))
    }
}

fn hash_lapse(mark: &Mark<'_>, time: Moment, last: bool, end: Moment) -> Option<Lapse>
    ensures { result ≡ hash_lapse (mark_seen mark.now) time last end }
{
    if last && !is_before(&time, &end) {
        Some(lapse_by(mark, Cause::Hash, end))
    } else {
        None
    }
}

fn lapse_by(mark: &Mark<'_>, cause: Cause, end: Moment) -> Lapse
    ensures { result ≡ lapse_by (mark_seen mark.now) cause end }
{
    Lapse {
        chain: mark.chain,
        stamp: mark.stamp,
        cause,
        end,
    }
}
