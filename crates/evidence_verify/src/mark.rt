ghost use Rattle.std.specs.Prelude.{◌≡◌, map, IfOk};
ghost use Rattle.evidence_verify.specs.Lapse.{mark_of, marks_of, mark_seen};
ghost use Rattle.evidence_verify.specs.Inside.{checked_seen};

use crate::stamps::Checked;
use civil_moment::Moment;
use hash_kit::HashAlg;
use std::alloc::{AllocError, Global};

/// What a lapse asks of a time-stamp whose token is sound.
#[derive(Clone, Copy, Debug)]
pub struct Mark<'a> {
    /// The number of its chain.
    pub chain: u32,
    /// Its number in the chain.
    pub stamp: u32,
    /// The hash of its imprint, which is that of its chain.
    pub alg: HashAlg,
    /// The time that its token says.
    pub time: Moment,
    /// All bytes of the signer's identifier.
    pub sid: &'a [u8],
}

/// The mark of each time-stamp.
pub(crate) fn marks<'a>(
    alloc: Global,
    stamps: &[Checked<'_, 'a>],
) -> Result<Vec<Mark<'a>>, AllocError>
    ensures { IfOk result (λ marks. map mark_seen marks.items ≡ marks_of (map checked_seen stamps.now)) }
{
    let mut marks = Vec::new(alloc);
    for stamp in stamps {
        marks.push(mark_of(stamp))?;
    }
    Ok(marks)
}

fn mark_of<'a>(stamp: &Checked<'_, 'a>) -> Mark<'a>
    ensures { mark_seen result ≡ mark_of (checked_seen stamp.now) }
{
    Mark {
        chain: stamp.place.chain,
        stamp: stamp.place.stamp,
        alg: stamp.says.alg,
        time: stamp.says.time,
        sid: stamp.says.sid,
    }
}
