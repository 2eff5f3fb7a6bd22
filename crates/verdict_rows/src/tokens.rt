// Tokens of two trial authorities, in the order in which they were asked for.
use crate::fault::Unmade;
use civil_moment::Moment;
use der_values::{Bytes, Items};
use ev_devices::MemDisk;
use ev_world::Authority;
use hash_kit::{HashAlg, HashValue, digest};
use std::alloc::{AllocError, Global};
use trial_authority::{TrialAuthority, TrialPair};
use tst_info::read_response;

/// 2026-01-05 12:00.
pub const FIRST: u32 = 1_767_614_400;

/// 2029-03-01.
pub const SECOND: u32 = 1_867_017_600;

/// 2034-06-01.
pub const THIRD: u32 = 2_032_732_800;

// 2028-01-01, when the late authority takes over from the early one.
const SWITCH: u32 = 1_830_297_600;

// A request up to the hash value.
const FRONT_OF_SHA256: &[u8] =
    b"\x30\x37\x02\x01\x01\x30\x2f\x30\x0b\x06\x09\x60\x86\x48\x01\x65\x03\x04\x02\x01\x04\x20";

const FRONT_OF_SHA512: &[u8] =
    b"\x30\x57\x02\x01\x01\x30\x4f\x30\x0b\x06\x09\x60\x86\x48\x01\x65\x03\x04\x02\x03\x04\x40";

const NONCE: &[u8] = b"\x02\x01\x03";

/// The moment so many seconds after the begin of 1970.
pub fn at(seconds: u32) -> Moment {
    Moment {
        seconds: i64::from(seconds),
        nanos: 0,
    }
}

/// The trial authority of the seed of 32 such bytes, over a disk in memory that never fails.
pub fn authority(alloc: Global, seed: u8) -> Result<TrialAuthority<MemDisk>, AllocError> {
    let never = Items::from_vec(Vec::new(alloc));
    let disk = MemDisk::new(alloc, Bytes::from_vec(Vec::new(alloc)), never, u64::MAX);
    match TrialAuthority::new(alloc, disk, [seed; 32]) {
        Ok(authority) => Ok(authority),
        Err((_, fault)) => Err(fault),
    }
}

/// The early authority up to 2028, and the late one from then on.
pub fn pair(alloc: Global) -> Result<TrialPair<TrialAuthority<MemDisk>>, AllocError> {
    let early = authority(alloc, 1)?;
    let late = authority(alloc, 2)?;
    Ok(TrialPair::new(alloc, early, late, at(SWITCH)))
}

/// The tokens and the values that were made so far. Rows name them by their numbers.
#[derive(Drop)]
pub struct Made {
    alloc: Global,
    pub tokens: Vec<Vec<u8>>,
    pub values: Vec<HashValue>,
}

impl Made {
    /// Nothing yet.
    pub fn new(alloc: Global) -> Made {
        Made {
            alloc,
            tokens: Vec::new(alloc),
            values: Vec::new(alloc),
        }
    }

    /// The token of this number.
    pub fn token(&self, number: usize) -> Result<&[u8], Unmade> {
        match self.tokens.get(number) {
            Some(token) => Ok(token.as_slice()),
            None => Err(Unmade::Row),
        }
    }

    /// Adds a value.
    pub fn add_value(&mut self, value: HashValue) -> Result<(), Unmade> {
        Ok(self.values.push(value)?)
    }

    /// Adds a token, whatever its bytes are.
    pub fn add_token(&mut self, bytes: &[u8]) -> Result<(), Unmade> {
        let token = bytes.to_vec(self.alloc)?;
        Ok(self.tokens.push(token)?)
    }

    /// Adds the authority's token over a value of 32 or 64 bytes.
    pub fn stamp<A: Authority>(
        &mut self,
        authority: &mut A,
        seconds: u32,
        value: &HashValue,
    ) -> Result<(), Unmade> {
        let request = request(self.alloc, value)?;
        let Ok(reply) = authority.stamp(at(seconds), &request) else {
            return Err(Unmade::Token);
        };
        let Ok(token) = read_response(&reply) else {
            return Err(Unmade::Token);
        };
        self.add_token(token)
    }

    /// Adds the authority's token over the digest of the last token.
    pub fn stamp_again<A: Authority>(
        &mut self,
        authority: &mut A,
        seconds: u32,
        alg: HashAlg,
    ) -> Result<(), Unmade> {
        let value = match self.tokens.last() {
            Some(token) => digest(alg, token),
            None => return Err(Unmade::Row),
        };
        self.stamp(authority, seconds, &value)
    }
}

// Asks for a time-stamp over a value of 32 or 64 bytes.
fn request(alloc: Global, value: &HashValue) -> Result<Vec<u8>, AllocError> {
    let front = if value.bytes().len() == 64 {
        FRONT_OF_SHA512
    } else {
        FRONT_OF_SHA256
    };
    let mut bytes = front.to_vec(alloc)?;
    bytes.extend_from_slice(value.bytes())?;
    bytes.extend_from_slice(NONCE)?;
    Ok(bytes)
}
