// Why the record of a group isn't given.
ghost use Rattle.std.specs.Prelude.{◌≡◌, ◌<◌, List, length, map, option_map, None, IfOk};
ghost use Rattle.entry_codec.specs.declared.entry.Entry.{Entry};
ghost use Rattle.evidence_verify.specs.Marks.{first_lapse};
ghost use Rattle.evidence_verify.specs.Lapse.{mark_seen};
ghost use Rattle.archive_chain.specs.Held.{Agrees};
ghost use Rattle.archive_issue.specs.declared.fault.IssueFault.TheVariants.{Lapsed};
ghost use Rattle.archive_issue.specs.Reason.{last_time, early_by, time_reason, HasReason};

use crate::fault::IssueFault;
use crate::marks::marks;
use algorithm_policy::Policy;
use archive_chain::Archive;
use civil_moment::{Moment, is_before};
use evidence_verify::{Mark, first_lapse};
use std::alloc::{AllocError, Global};

/// The first reason not to give the record of a group, if there is one.
pub(crate) fn reason(
    alloc: Global,
    archive: &Archive,
    id: u32,
    moment: Moment,
) -> Result<Option<IssueFault>, AllocError>
    ensures reason { (history : List Entry) → Agrees archive.now history
        → IfOk result (HasReason archive.now history id moment) }
    ensures sealed { IfOk result (λ reason. reason ≡ None → id < length archive.now.kept.sealed) }
{
    let groups = archive.groups();
    if groups <= id {
        return Ok(Some(IssueFault::Unknown { id, groups }));
    }
    if !archive.covered(id) {
        return Ok(Some(IssueFault::Pending { id }));
    }
    let coverings = archive.coverings(alloc, id)?;
    let marks = marks(alloc, coverings.as_slice())?;
    Ok(time_reason(archive.policy(), moment, marks.as_slice()))
}

// What stands against a record at this moment.
fn time_reason(policy: &Policy, moment: Moment, marks: &[Mark<'_>]) -> Option<IssueFault>
    ensures { result ≡ time_reason policy.now moment (map mark_seen marks.now) }
{
    match early(moment, marks) {
        Some(fault) => Some(fault),
        None => lapsed(policy, moment, marks),
    }
}

// That the moment is before the last time.
fn early(moment: Moment, marks: &[Mark<'_>]) -> Option<IssueFault>
    ensures { result ≡ early_by moment (last_time (map mark_seen marks.now)) }
{
    let last = marks.last()?.time;
    if is_before(&moment, &last) {
        Some(IssueFault::Early { moment, last })
    } else {
        None
    }
}

fn lapsed(policy: &Policy, moment: Moment, marks: &[Mark<'_>]) -> Option<IssueFault>
    ensures { result ≡ option_map Lapsed (first_lapse policy.now moment (map mark_seen marks.now)) }
{
    match first_lapse(policy, moment, marks) {
        Some(lapse) => Some(IssueFault::Lapsed(lapse)),
        None => None,
    }
}
