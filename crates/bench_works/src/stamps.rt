use crate::fault::BenchFault;
use civil_moment::Moment;
use der_values::{Bytes, Items};
use ev_devices::MemDisk;
use ev_world::Authority;
use std::alloc::{AllocError, Global};
use trial_authority::TrialAuthority;

/// A request over the SHA-256 of `abc`, with the nonce 3.
const REQUEST: &[u8] = b"\
    \x30\x37\x02\x01\x01\x30\x2f\x30\x0b\x06\x09\x60\x86\x48\x01\x65\x03\x04\x02\x01\x04\x20\
    \xba\x78\x16\xbf\x8f\x01\xcf\xea\x41\x41\x40\xde\x5d\xae\x22\x23\
    \xb0\x03\x61\xa3\x96\x17\x7a\x9c\xb4\x10\xff\x61\xf2\x00\x15\xad\x02\x01\x03";

/// The begin of 2026.
const NOW: Moment = Moment {
    seconds: 1_767_225_600,
    nanos: 0,
};

/// The authority of a seed, over an empty disk in memory.
fn authority(alloc: Global, seed: [u8; 32]) -> Result<TrialAuthority<MemDisk>, AllocError> {
    let never = Items::from_vec(Vec::new(alloc));
    let disk = MemDisk::new(alloc, Bytes::from_vec(Vec::new(alloc)), never, u64::MAX);
    match TrialAuthority::new(alloc, disk, seed) {
        Ok(authority) => Ok(authority),
        Err((_, fault)) => Err(fault),
    }
}

/// The last of so many replies of one authority, which has 1,024 indexes. Only a clock looks at it.
pub fn last_reply(alloc: Global, seed: [u8; 32], count: u32) -> Result<Vec<u8>, BenchFault> {
    let mut authority = authority(alloc, seed)?;
    let mut last = Vec::new(alloc);
    for done in 0..count {
        last = match authority.stamp(NOW, REQUEST) {
            Ok(reply) => reply,
            Err(_) => return Err(BenchFault::Memory),
        };
    }
    Ok(last)
}
