// The bytes of a journal, and how a frame is added to them.
//
//     place       bytes   what
//     0           16      the header, `EVIDENCE-ARCH-1` and LF
//     16          1       the gate of frame 0
//
// and for a frame with its gate at g and a payload of n bytes:
//
//     g           1       its gate, open exactly where it is 01
//     g + 1       4       n, the greatest byte first, at most 9,437,184
//     g + 5       n       the payload
//     g + 5 + n   32      the payload's SHA-256
//     g + 37 + n  1       the gate of the next frame
//
// Frames follow while the gate before them is open. Bytes behind a closed gate mean nothing. From place 0 to the closed
// gate there are at most 1,073,741,824 bytes.
ghost use Rattle.std.specs.Prelude.{◌≡◌, ◌⊎◌, ◌↔◌, ◌+◌, ◌≤◌, ℕ, List, [], ◌∷◌, ◌++◌, length, take, IsTrue, IsOk, OnOk, vec_capacity};
ghost use Rattle.ev_world.specs.Causes.{HasCause};
ghost use Rattle.ev_world.specs.Disk.{Only, LeavesOnly, IsOnDisk, WritesOnly};
ghost use Rattle.gate_journal.specs.Journal.{max_payload, max_journal, body, Reads};
ghost use Rattle.gate_journal.specs.Inside.{max_write, IsAtRest};

use ev_world::{Disk, Failed, write_synced};
use hash_kit::{HashAlg, digest};
use std::alloc::AllocError;

/// The most bytes of a payload.
pub const MAX_PAYLOAD: u64 = 9_437_184;

/// The most bytes of a journal, its closed gate among them.
pub(crate) const LIMIT: u64 = 1_073_741_824;

/// The most bytes that an append writes at once: a length, a payload, a digest and a gate.
pub(crate) const BUFFER: usize = 9_437_221;

pub(crate) const HEADER: [u8; 16] = *b"EVIDENCE-ARCH-1\n";

const OPEN: u8 = 1;

const CLOSED: u8 = 0;

// Where a frame stands: the place of its gate, and the length of its payload.
#[derive(Clone, Copy, Debug, Drop)]
pub(crate) struct Frame {
    pub(crate) place: u64,
    pub(crate) length: u64,
}

// Whether a gate is open.
pub(crate) fn is_open(gate: u8) -> bool
    ensures { IsTrue result ↔ (gate ≡ 1) }
{
    gate == OPEN
}

// Puts what stands behind a frame's gate, and the next gate, into the buffer, which has room for them.
#[tactic(auto, unfolding(crate::specs::Journal::body))]
fn fill(buffer: &mut Vec<u8>, payload: &[u8]) -> Result<(), AllocError>
    requires size { length payload.now ≤ max_payload }
    requires room { max_write ≤ vec_capacity buffer.old }
    ensures ok { IsOk result }
    ensures items { buffer.new.items ≡ body payload.now ++ 0 ∷ [] }
    ensures room { max_write ≤ vec_capacity buffer.new }
{
    let size = payload.len() as u32;
    let hash = digest(HashAlg::Sha256, payload);
    buffer.clear();
    buffer.extend_from_slice(&size.to_be_bytes())?;
    buffer.extend_from_slice(payload)?;
    buffer.extend_from_slice(hash.bytes())?;
    buffer.extend_from_slice(&[CLOSED])?;
    Ok(())
}

// Writes what stands behind the closed gate at `end`, up to the next gate.
fn write_behind<D: Disk>(disk: &mut D, end: u64, bytes: &[u8]) -> Result<(), Failed>
    requires limit { end + 1 ≤ max_journal }
    requires gate { IsTrue D.tells → end + 1 ≤ length (D.reads disk.old) }
    ensures on_disk { OnOk result (IsTrue D.tells → IsOnDisk D.reads D.images disk.old disk.new (end + 1) bytes.now) }
    ensures within { IsTrue D.tells → WritesOnly D.reads D.images D.clock D.since disk.old disk.new (end + 1) (length bytes.now) }
    ensures cause { HasCause (D.faults disk.old) (D.faults disk.new) result }
{
    write_synced(disk, end + 1, bytes)
}

// Opens the gate at `end`.
fn open_gate<D: Disk>(disk: &mut D, end: u64) -> Result<(), Failed>
    requires { IsTrue D.tells → end ≤ length (D.reads disk.old) }
    ensures on_disk { OnOk result (IsTrue D.tells → IsOnDisk D.reads D.images disk.old disk.new end (1 ∷ [])) }
    ensures within { IsTrue D.tells → WritesOnly D.reads D.images D.clock D.since disk.old disk.new end 1 }
    ensures cause { HasCause (D.faults disk.old) (D.faults disk.new) result }
{
    write_synced(disk, end, &[OPEN])
}

// Puts a frame behind the closed gate at `end`, and opens the gate.
pub(crate) fn write_frame<D: Disk>(
    disk: &mut D,
    buffer: &mut Vec<u8>,
    end: u64,
    payload: &[u8],
) -> Result<(), Failed>
    requires size { length payload.now ≤ max_payload }
    requires limit { end + length payload.now + 38 ≤ max_journal }
    requires gate { IsTrue D.tells → end + 1 ≤ length (D.reads disk.old) }
    requires room { max_write ≤ vec_capacity buffer.old }
    ensures made { OnOk result (IsTrue D.tells → (h : List (List ℕ)) → IsAtRest (D.reads disk.old) end h
        → IsAtRest (D.reads disk.new) (end + length payload.now + 37) (h ++ payload.now ∷ [])) }
    ensures either { IsTrue D.tells → (h : List (List ℕ)) → IsAtRest (D.reads disk.old) end h
        → Reads (D.reads disk.new) h ⊎ Reads (D.reads disk.new) (h ++ payload.now ∷ []) }
    ensures durable { OnOk result (IsTrue D.tells → Only (D.reads disk.new) (D.images disk.new)) }
    ensures any_moment { IsTrue D.tells → (h : List (List ℕ)) → IsAtRest (D.reads disk.old) end h → Only (D.reads disk.old) (D.images disk.old)
        → LeavesOnly D.clock D.since disk.old disk.new (λ c. Reads c h ⊎ Reads c (h ++ payload.now ∷ [])) }
    ensures front { IsTrue D.tells → take end (D.reads disk.new) ≡ take end (D.reads disk.old) }
    ensures room { max_write ≤ vec_capacity buffer.new }
    ensures cause { HasCause (D.faults disk.old) (D.faults disk.new) result }
{
    let Ok(()) = fill(buffer, payload) else {
        unreachable!()
    };
    // The frame has to be on the disk first: behind a gate that is open, whatever is there would count.
    write_behind(disk, end, buffer)?;
    // Only what is on the disk is acknowledged, the open gate too.
    open_gate(disk, end)?;
    Ok(())
}
