// What the time-stamps of a group say.
ghost use Rattle.std.specs.Prelude.{◌≡◌, ◌++◌, ◌∷◌, map, true, false, IfOk};
ghost use Rattle.archive_chain.specs.InsideRows.{begun};
ghost use Rattle.archive_chain.specs.InsideTable.{later_seen, row_seen};
ghost use Rattle.archive_chain.specs.InsideReadable.{IsTreed};
ghost use Rattle.archive_chain.specs.InsideCovers.{covering_seen, told_of, told_by};

use crate::row::Row;
use crate::sequence::stamp_in;
use crate::time_stamp::{Slot, TimeStamp};
use civil_moment::Moment;
use hash_kit::HashAlg;
use std::alloc::AllocError;

/// A time-stamp of a group: whether it begins a chain, its hash, and the time and the signer's identifier that its token
/// says.
#[derive(Clone, Copy, Debug)]
pub struct Covering<'a> {
    pub begins: bool,
    pub alg: HashAlg,
    pub time: Moment,
    pub sid: &'a [u8],
}

fn said_by(stamp: &TimeStamp, begins: bool) -> Covering<'_>
    ensures { covering_seen result ≡ told_of stamp.now begins }
{
    Covering {
        begins,
        alg: stamp.alg,
        time: stamp.time,
        sid: stamp.sid.as_slice(),
    }
}

// With one more for each time-stamp of the chain in a row.
pub(crate) fn with_chain<'a>(
    coverings: Vec<Covering<'a>>,
    stamps: &'a [Slot],
    row: &Row,
) -> Result<Vec<Covering<'a>>, AllocError>
    requires { IsTreed stamps.now row.now }
    ensures { IfOk result (λ all. map covering_seen all.items ≡ map covering_seen coverings.entry.items
        ++ map (told_by stamps.now) (begun (row_seen stamps.now row.now) 0 ∷ map (later_seen stamps.now) row.now.later.items)) }
{
    let mut all = coverings;
    all.push(said_by(stamp_in(stamps, row.stamp), true))?;
    for later in &row.later {
        all.push(said_by(stamp_in(stamps, later.stamp), false))?;
    }
    Ok(all)
}
