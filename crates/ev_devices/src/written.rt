// What was written to a disk in memory.
ghost use Rattle.std.specs.Prelude.{◌≡◌};
ghost use Rattle.ev_devices.specs.Writes.{first_sync, sync_last};

use der_values::Bytes;

/// A write to a disk: its bytes and their place, the moment when it was made, and that of the first sync after it, where one
/// came before the next write.
#[derive(Debug, Drop)]
pub struct Written {
    pub place: u64,
    pub bytes: Bytes,
    pub moment: u64,
    pub synced: Option<u64>,
}

fn first_of(synced: Option<u64>, moment: u64) -> Option<u64>
    ensures { result ≡ first_sync synced moment }
{
    match synced {
        None => Some(moment),
        Some(earlier) => Some(earlier),
    }
}

/// A sync at this moment comes after the last write.
pub(crate) fn sync_now(writes: &mut Vec<Written>, moment: u64)
    ensures { writes.new.items ≡ sync_last moment writes.old.items }
{
    let Some(last) = writes.pop() else {
        return;
    };
    let written = Written {
        synced: first_of(last.synced, moment),
        ..last
    };
    let Ok(()) = writes.push(written) else {
        unreachable!()
    };
}
