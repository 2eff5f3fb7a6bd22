// Opening reads the frames one by one, up to the first gate that is closed: two reads a frame.
ghost use Rattle.std.specs.Prelude.{◌≡◌, map, ◌+◌, ◌^◌, ◌<◌, ◌≤◌, ◌↔◌, drop, length, IsTrue, IfOk, IfSome, IfErr, IsErrOf, vec_capacity};
ghost use Rattle.std.specs.Int.{w32, to_be_bytes, from_be_bytes};
ghost use Rattle.ev_world.specs.Causes.{Rose, HasCause};
ghost use Rattle.ev_world.specs.Disk.{Only, IsQuiet, OnlyReads};
ghost use Rattle.gate_journal.specs.Journal.{max_payload, max_journal};
ghost use Rattle.gate_journal.specs.Damage.{IsFormatted, Damages, IsOpenFault};
ghost use Rattle.gate_journal.specs.Inside.{max_write, IsGate, IsNext, IsFaultAt, IsFound};

use crate::JournalFault;
use crate::frame::{BUFFER, Frame, HEADER, LIMIT, MAX_PAYLOAD, is_open};
use ev_world::{Disk, Failed, read, settle, size_of};
use hash_kit::{HashAlg, HashValue, digest};
use std::alloc::Global;

// The frames that were found, and where the closed gate behind them stands.
#[derive(Drop)]
pub(crate) struct Found {
    pub(crate) frames: Vec<Frame>,
    pub(crate) end: u64,
}

// Whether the header and a gate are there.
fn is_formatted<D: Disk>(disk: &mut D, size: u64) -> Result<bool, Failed>
    requires { IsTrue D.tells → size ≡ length (D.reads disk.old) }
    ensures is { IfOk result (λ b. IsTrue D.tells → (IsTrue b ↔ IsFormatted (D.reads disk.old))) }
    ensures size { IfOk result (λ b. IsTrue b → 17 ≤ size) }
    ensures quiet { IsTrue D.tells → IsQuiet D.reads D.images D.clock D.since disk.old disk.new }
    ensures cause { HasCause (D.faults disk.old) (D.faults disk.new) result }
{
    if size < 17 {
        return Ok(false);
    }
    let mut start = [0; 16];
    read(disk, 0, &mut start)?;
    Ok(start == HEADER)
}

// Reads a gate: none where it is closed, else the length behind it. Bytes that are missing are read as 0.
fn read_gate<D: Disk>(disk: &mut D, place: u64, size: u64) -> Result<Option<u64>, Failed>
    requires size { IsTrue D.tells → size ≡ length (D.reads disk.old) }
    requires within { place + 1 ≤ size }
    ensures gate { IfOk result (λ o. IsTrue D.tells → IsGate (drop place (D.reads disk.old)) o) }
    ensures fits { IfOk result (λ o. IfSome o (λ n. n + 1 ≤ 2 ^ 32)) }
    ensures quiet { IsTrue D.tells → IsQuiet D.reads D.images D.clock D.since disk.old disk.new }
    ensures cause { HasCause (D.faults disk.old) (D.faults disk.new) result }
{
    let left = size - place;
    let room = if left < 5 { left as usize } else { 5 };
    let mut head = [0; 5];
    read(disk, place, &mut head[..room])?;
    if is_open(head[0]) {
        Ok(Some(length_of(&head)))
    } else {
        Ok(None)
    }
}

// The length behind a gate.
fn length_of(head: &[u8; 5]) -> u64
    ensures value { result ≡ from_be_bytes w32 (drop 1 head.now) }
    ensures bytes { to_be_bytes w32 result ≡ drop 1 head.now }
    ensures fits { result + 1 ≤ 2 ^ 32 }
{
    length_in(&[head[1], head[2], head[3], head[4]])
}

fn length_in(bytes: &[u8; 4]) -> u64
    ensures value { result ≡ from_be_bytes w32 bytes.now }
    ensures bytes { to_be_bytes w32 result ≡ bytes.now }
    ensures fits { result + 1 ≤ 2 ^ 32 }
{
    u64::from(u32::from_be_bytes(*bytes))
}

// Reads what stands at the gate of frame `entry`: none where the gate is closed, else the frame's length.
fn next_frame<D: Disk>(
    disk: &mut D,
    buffer: &mut Vec<u8>,
    entry: u64,
    place: u64,
    size: u64,
) -> Result<Option<u64>, JournalFault>
    requires size { IsTrue D.tells → size ≡ length (D.reads disk.old) }
    requires within { place + 1 ≤ size }
    requires limit { place + 1 ≤ max_journal }
    requires room { max_write ≤ vec_capacity buffer.old }
    ensures next { IfOk result (λ o. IsTrue D.tells → IsNext (drop place (D.reads disk.old)) place o) }
    ensures fits { IfOk result (λ o. IfSome o (λ n. (n ≤ max_payload) × (place + n + 38 ≤ size) × (place + n + 38 ≤ max_journal))) }
    ensures answers { IfErr result IsOpenFault }
    ensures fault { IfErr result (λ e. IsTrue D.tells → IsFaultAt (drop place (D.reads disk.old)) place entry e) }
    ensures failed { IsErrOf result JournalFault.DiskFault → Rose (D.faults disk.old) (D.faults disk.new) }
    ensures only_reads { OnlyReads D.tells D.reads D.images D.clock D.since D.faults disk.old disk.new }
    ensures room { max_write ≤ vec_capacity buffer.new }
{
    let Some(length) = read_gate(disk, place, size)? else {
        return Ok(None);
    };
    if length > MAX_PAYLOAD || size - place < length + 38 || place + length + 38 > LIMIT {
        return Err(JournalFault::BadLength { entry, length });
    }
    let end = length as usize + 32;
    fill_up(buffer, end);
    let body = &mut buffer[..end];
    read(disk, place + 5, body)?;
    let (payload, kept) = body.split_at(length as usize);
    let found = digest(HashAlg::Sha256, payload);
    if found.bytes() == kept {
        Ok(Some(length))
    } else {
        Err(JournalFault::Damaged {
            entry,
            kept: HashValue::of(kept),
            found,
        })
    }
}

// Puts zeros behind what is in the buffer, which has room for them, until it has this size. Room that no frame needs isn't touched.
fn fill_up(buffer: &mut Vec<u8>, size: usize)
    requires room { max_write ≤ vec_capacity buffer.old }
    requires fits { size ≤ max_write }
    ensures long { size ≤ length buffer.new.items }
    ensures room { max_write ≤ vec_capacity buffer.new }
{
    if buffer.len() < size {
        let Ok(()) = buffer.resize(size, 0) else {
            unreachable!()
        };
    }
}

// Reads the frames of a journal.
fn read_frames<D: Disk>(
    alloc: Global,
    disk: &mut D,
    buffer: &mut Vec<u8>,
) -> Result<Found, JournalFault>
    requires room { max_write ≤ vec_capacity buffer.old }
    ensures room { max_write ≤ vec_capacity buffer.new }
    ensures found { IfOk result (λ r. IsFound D.tells (D.reads disk.old) (map (λ f. f.place) r.frames.items) (map (λ f. f.length) r.frames.items) r.end) }
    ensures answers { IfErr result IsOpenFault }
    ensures fault { IfErr result (λ e. IsTrue D.tells → Damages (D.reads disk.old) e) }
    ensures failed { IsErrOf result JournalFault.DiskFault → Rose (D.faults disk.old) (D.faults disk.new) }
    ensures only_reads { OnlyReads D.tells D.reads D.images D.clock D.since D.faults disk.old disk.new }
{
    let size = size_of(disk)?;
    if !is_formatted(disk, size)? {
        return Err(JournalFault::NotFormatted);
    }
    let mut frames = Vec::new(alloc);
    let mut place = 16;
    'frames: loop {
        match next_frame(disk, buffer, frames.len() as u64, place, size) {
            Err(fault) => return Err(fault),
            Ok(None) => return Ok(Found { frames, end: place }),
            Ok(Some(length)) => {
                frames.push(Frame { place, length })?;
                place += length + 37;
            }
        }
    }
}

// Reads a journal, once all of its bytes are on the disk, with a buffer for the greatest frame.
pub(crate) fn read_journal<D: Disk>(
    alloc: Global,
    disk: &mut D,
) -> Result<(Found, Vec<u8>), JournalFault>
    ensures found { IfOk result (λ r. IsFound D.tells (D.reads disk.old) (map (λ f. f.place) r.0.frames.items) (map (λ f. f.length) r.0.frames.items) r.0.end) }
    ensures room { IfOk result (λ r. max_write ≤ vec_capacity r.1) }
    ensures durable { IfOk result (λ r. IsTrue D.tells → Only (D.reads disk.old) (D.images disk.new)) }
    ensures answers { IfErr result IsOpenFault }
    ensures fault { IfErr result (λ e. IsTrue D.tells → Damages (D.reads disk.old) e) }
    ensures failed { IsErrOf result JournalFault.DiskFault → Rose (D.faults disk.old) (D.faults disk.new) }
    ensures only_reads { OnlyReads D.tells D.reads D.images D.clock D.since D.faults disk.old disk.new }
{
    // What is told of has to be what a crash leaves.
    let Ok(()) = settle(disk) else {
        return Err(JournalFault::DiskFault);
    };
    let Ok(mut buffer) = Vec::with_capacity(alloc, BUFFER) else {
        return Err(JournalFault::Memory);
    };
    match read_frames(alloc, disk, &mut buffer) {
        Ok(found) => Ok((found, buffer)),
        Err(fault) => Err(fault),
    }
}
