// How a disk in memory is left by a crash.
ghost use Rattle.std.specs.Prelude.{◌≡◌, ◌≤◌, IfOk, OnOk, length};
ghost use Rattle.ev_devices.specs.Writes.{before_sync, touched, touch_all, left_by};

use crate::content::overwrite;
use crate::written::Written;
use std::alloc::{AllocError, Global};

/// What a crash makes of the writes since the last sync: none of them is there, or all are, or each range and the part past the
/// old end is filled with a byte.
#[derive(Clone, Copy, Debug, PartialEq, Eq)]
pub enum Crash {
    Old,
    New,
    Torn(u8),
}

// How many of the writes came before the last sync.
fn before_last_sync(writes: &[Written]) -> usize
    ensures count { result ≡ before_sync writes.now }
    ensures within { result ≤ length writes.now }
{
    let mut made = 0;
    let mut count = 0;
    for write in writes {
        made += 1;
        if write.synced.is_some() {
            count = made;
        }
    }
    count
}

fn touch(alloc: Global, how: Crash, bytes: &mut Vec<u8>, write: &Written) -> Result<(), AllocError>
    ensures { OnOk result (bytes.new.items ≡ touched how bytes.old.items write.now) }
{
    match how {
        Crash::Old => Ok(()),
        Crash::New => overwrite(bytes, write.place, write.bytes.as_slice()),
        Crash::Torn(byte) => {
            let filled = vec![in alloc; byte; write.bytes.as_slice().len()]?;
            overwrite(bytes, write.place, &filled)
        }
    }
}

fn touch_each(
    alloc: Global,
    how: Crash,
    bytes: &mut Vec<u8>,
    writes: &[Written],
) -> Result<(), AllocError>
    ensures { OnOk result (bytes.new.items ≡ touch_all how bytes.old.items writes.now) }
{
    for write in writes {
        touch(alloc, how, bytes, write)?;
    }
    Ok(())
}

/// The bytes that a crash leaves of a disk that began with these bytes, all on it, and was asked these writes.
pub(crate) fn left_after(
    alloc: Global,
    how: Crash,
    first: Vec<u8>,
    writes: &[Written],
) -> Result<Vec<u8>, AllocError>
    ensures { IfOk result (λ bytes. bytes.items ≡ left_by how first.items writes.now) }
{
    let mut bytes = first;
    let (synced, later) = writes.split_at(before_last_sync(writes));
    touch_each(alloc, Crash::New, &mut bytes, synced)?;
    touch_each(alloc, how, &mut bytes, later)?;
    Ok(bytes)
}
