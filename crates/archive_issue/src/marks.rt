// What a lapse asks of each time-stamp of a group.
ghost use Rattle.std.specs.Prelude.{◌≡◌, ◌<◌, ◌≤◌, length, map, IfOk};
ghost use Rattle.evidence_verify.specs.Lapse.{mark_seen};
ghost use Rattle.archive_chain.specs.Rules.{most_stamps};
ghost use Rattle.archive_issue.specs.InsideMarks.{chain_after, stamp_after, mark_at, marks_by};

use archive_chain::Covering;
use evidence_verify::Mark;
use std::alloc::{AllocError, Global};

/// The mark of each time-stamp, numbered by its chain and in its chain.
pub(crate) fn marks<'a>(
    alloc: Global,
    coverings: &[Covering<'a>],
) -> Result<Vec<Mark<'a>>, AllocError>
    requires { length coverings.now ≤ most_stamps }
    ensures { IfOk result (λ marks. map mark_seen marks.items ≡ marks_by coverings.now) }
{
    let mut marks = Vec::new(alloc);
    let Some((first, later)) = coverings.split_first() else {
        return Ok(marks);
    };
    marks.push(mark_at(0, 0, first))?;
    let mut chain = 0;
    let mut stamp = 0;
    for covering in later {
        chain = chain_after(chain, covering.begins);
        stamp = stamp_after(stamp, covering.begins);
        marks.push(mark_at(chain, stamp, covering))?;
    }
    Ok(marks)
}

fn mark_at<'a>(chain: u32, stamp: u32, covering: &Covering<'a>) -> Mark<'a>
    ensures { mark_seen result ≡ mark_at chain stamp covering.now }
{
    Mark {
        chain,
        stamp,
        alg: covering.alg,
        time: covering.time,
        sid: covering.sid,
    }
}

fn chain_after(chain: u32, begins: bool) -> u32
    requires { chain < most_stamps }
    ensures { result ≡ chain_after chain begins }
{
    if begins { chain + 1 } else { chain }
}

fn stamp_after(stamp: u32, begins: bool) -> u32
    requires { stamp < most_stamps }
    ensures { result ≡ stamp_after stamp begins }
{
    if begins { 0 } else { stamp + 1 }
}
