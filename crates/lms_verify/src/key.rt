ghost use Rattle.std.specs.Prelude.{◌≡◌, ◌≤◌, false, true, length, MatchOption};
ghost use Rattle.hash_kit.specs.HssKey.{lms_type_of, ots_type_of, identifier_of, root_of, is_lms_key};
ghost use Rattle.lms_verify.specs.Ots.{IsSet, set_of};
ghost use Rattle.lms_verify.specs.Lms.{height_of};

use crate::ots::{OtsSet, set_of};
use hash_kit::{has_types, u32_at};
use std::marker::Model;

/// The bytes of an LMS public key.
pub(crate) const SIZE: usize = 56;

/// An LMS public key (RFC 8554, section 5.3), seen as its 56 bytes: its types are known.
#[derive(Drop)]
pub(crate) struct LmsKey<'a> {
    bytes: &'a [u8],
}

/// The height of the tree of an LMS type from 5 to 9 (RFC 8554, section 5.1).
pub fn height_of(lms_type: u32) -> u32
    ensures value { result ≡ height_of lms_type }
    ensures most { result ≤ 25 }
{
    match lms_type {
        5 => 5,
        6 => 10,
        7 => 15,
        8 => 20,
        _ => 25,
    }
}

impl<'a> Model for LmsKey<'a> {
    ghost use Rattle.std.specs.Prelude.{ℕ, List, IsTrue};
    ghost use Rattle.hash_kit.specs.HssKey.{is_lms_key};

    ghost Value = { List ℕ };

    ghost view = { λ k. k.bytes.now };

    ghost invariant = { λ k. IsTrue (is_lms_key k.bytes.now) };
}

impl<'a> LmsKey<'a> {
    // The key of these bytes, if they are one.
    pub(crate) fn read(bytes: &'a [u8]) -> Option<LmsKey<'a>>
        ensures { MatchOption result (is_lms_key bytes.now ≡ false) (λ key. key ≡ bytes.now) }
    {
        if bytes.len() == SIZE && has_types(bytes) {
            Some(LmsKey { bytes })
        } else {
            None
        }
    }

    pub(crate) fn lms_type(&self) -> u32
        ensures { result ≡ lms_type_of self.now }
    {
        u32_at(self.bytes, 0)
    }

    pub(crate) fn ots_type(&self) -> u32
        ensures { result ≡ ots_type_of self.now }
    {
        u32_at(self.bytes, 4)
    }

    // The parameters of its one-time signatures.
    pub(crate) fn set(&self) -> OtsSet
        ensures value { result ≡ set_of (ots_type_of self.now) }
        ensures known { IsSet result }
        ensures digits { result.digits ≡ (set_of (ots_type_of self.now)).digits }
        ensures few { result.digits ≤ 265 }
    {
        set_of(self.ots_type())
    }

    // The height of its tree.
    pub(crate) fn height(&self) -> u32
        ensures value { result ≡ height_of (lms_type_of self.now) }
        ensures most { result ≤ 25 }
    {
        height_of(self.lms_type())
    }

    // The identifier I.
    pub(crate) fn identifier(&self) -> &'a [u8]
        ensures value { result.now ≡ identifier_of self.now }
        ensures size { length result.now ≡ 16 }
    {
        &self.bytes[8..24]
    }

    // The root T[1].
    pub(crate) fn root(&self) -> &'a [u8]
        ensures value { result.now ≡ root_of self.now }
        ensures key { is_lms_key self.now ≡ true }
    {
        &self.bytes[24..56]
    }
}
