// The bytes of a key state, and how it is made.
//
//     place     bytes   what
//     0         16      the header, `EVIDENCE-KEYS-1` and LF
//     16 + i    1       the index i: 00 where it isn't used
ghost use Rattle.std.specs.Prelude.{◌≡◌, ◌≤◌, ◌↔◌, ◌+◌, ◌++◌, length, drop, replicate, IsTrue, IsErrOf, IfOk, IfErr, OnOk};
ghost use Rattle.ev_world.specs.Causes.{Rose, HasCause};
ghost use Rattle.ev_world.specs.Disk.{Torn, After, Only, IsQuiet, LeavesOnly};
ghost use Rattle.key_state.specs.Keys.{header, next_index, IsKeyStateFormatted, IsKeys, IsKeyStateCreateFault};

use crate::StateFault;
use der_values::zeros;
use ev_world::{Disk, Failed, read, size_of, write_synced};
use std::alloc::{AllocError, Global};

pub(crate) const HEADER: [u8; 16] = *b"EVIDENCE-KEYS-1\n";

/// Makes a key state of so many indexes, none of them used, over what is there. Bytes behind it stay. Where a header is there
/// already it writes nothing: an index of that state that is used would be given again.
pub fn create<B: Disk>(alloc: Global, disk: B, leaves: u32) -> (B, Result<(), StateFault>)
    requires some { 1 ≤ leaves }
    requires few { leaves ≤ 1048576 }

    ensures made { OnOk result.1 (IsTrue B.tells → ¬ IsKeyStateFormatted (B.reads disk) → B.reads result.0 ≡ header ++ replicate leaves 0 ++ drop (16 + leaves) (B.reads disk)) }
    ensures durable { OnOk result.1 (IsTrue B.tells → ¬ IsKeyStateFormatted (B.reads disk) → Only (B.reads result.0) (B.images result.0)) }
    // Where nothing stands behind it, it is a key state.
    ensures keys { OnOk result.1 (IsTrue B.tells → ¬ IsKeyStateFormatted (B.reads disk) → length (B.reads disk) ≤ 16 + leaves → IsKeys (B.reads result.0) leaves) }
    ensures unused { OnOk result.1 (IsTrue B.tells → ¬ IsKeyStateFormatted (B.reads disk) → length (B.reads disk) ≤ 16 + leaves → next_index (B.reads result.0) ≡ 0) }
    ensures kept { IsTrue B.tells → IsKeyStateFormatted (B.reads disk) → IsQuiet B.reads B.images B.clock B.since disk result.0 }
    // Memory is taken before anything is written.
    ensures wants { IsErrOf result.1 StateFault.Memory → IsTrue B.tells → IsQuiet B.reads B.images B.clock B.since disk result.0 }
    // A crash at any moment of the call leaves what stands behind the bytes of the state.
    ensures any_moment { IsTrue B.tells → LeavesOnly B.clock B.since disk result.0 (After (Torn 0 (16 + leaves)) (B.images disk)) }

    ensures answers { IfErr result.1 IsKeyStateCreateFault }
    ensures failed { IsErrOf result.1 StateFault.DiskFault → Rose (B.faults disk) (B.faults result.0) }
    ensures later { B.faults disk ≤ B.faults result.0 }
{
    let mut disk = disk;
    let answer = create_on(alloc, &mut disk, leaves);
    (disk, answer)
}

fn create_on<B: Disk>(alloc: Global, disk: &mut B, leaves: u32) -> Result<(), StateFault>
    requires { leaves ≤ 1048576 }
    ensures made { OnOk result (IsTrue B.tells → ¬ IsKeyStateFormatted (B.reads disk.old) → B.reads disk.new ≡ header ++ replicate leaves 0 ++ drop (16 + leaves) (B.reads disk.old)) }
    ensures durable { OnOk result (IsTrue B.tells → ¬ IsKeyStateFormatted (B.reads disk.old) → Only (B.reads disk.new) (B.images disk.new)) }
    ensures kept { IsTrue B.tells → IsKeyStateFormatted (B.reads disk.old) → IsQuiet B.reads B.images B.clock B.since disk.old disk.new }
    ensures wants { IsErrOf result StateFault.Memory → IsTrue B.tells → IsQuiet B.reads B.images B.clock B.since disk.old disk.new }
    // A crash at any moment of the call leaves what stands behind the bytes of the state.
    ensures any_moment { IsTrue B.tells → LeavesOnly B.clock B.since disk.old disk.new (After (Torn 0 (16 + leaves)) (B.images disk.old)) }
    ensures answers { IfErr result IsKeyStateCreateFault }
    ensures failed { IsErrOf result StateFault.DiskFault → Rose (B.faults disk.old) (B.faults disk.new) }
    ensures later { B.faults disk.old ≤ B.faults disk.new }
{
    if is_formatted(disk)? {
        return Ok(());
    }
    let unused = zeros(alloc, leaves as usize + 16)?;
    // The bytes of the indexes have to be on the disk before the header: behind a header whatever is there counts.
    write_synced(disk, 0, &unused)?;
    write_synced(disk, 0, &HEADER)?;
    Ok(())
}

// Whether a header is there.
fn is_formatted<B: Disk>(disk: &mut B) -> Result<bool, Failed>
    ensures is { IfOk result (λ b. IsTrue B.tells → (IsTrue b ↔ IsKeyStateFormatted (B.reads disk.old))) }
    ensures quiet { IsTrue B.tells → IsQuiet B.reads B.images B.clock B.since disk.old disk.new }
    ensures cause { HasCause (B.faults disk.old) (B.faults disk.new) result }
{
    if size_of(disk)? < 16 {
        return Ok(false);
    }
    let mut start = [0; 16];
    read(disk, 0, &mut start)?;
    Ok(start == HEADER)
}
