ghost use Rattle.std.specs.Prelude.{◌≡◌, ◌↔◌, ◌+◌, ◌<◌, ◌≤◌, length, Some, IfOk, Err, nat_eq};
ghost use Rattle.std.specs.Cmp.{partial_equiv_from_equiv};
ghost use Rattle.std.specs.Cmp.Lexicographic.{pointwise, nat_list_eq_equiv};
ghost use Rattle.hash_kit.specs.HssKey.{u32_at, has_types, has_levels, levels_of, top_key_of, key_fault};
ghost use Rattle.hash_kit.specs.declared.key.KeyFault.{KeyFault};

use std::marker::Model;

/// The bytes of an HSS public key.
const SIZE: usize = 60;

/// Why bytes aren't an HSS public key. The causes are tried in this order.
#[derive(Clone, Copy, Debug, PartialEq, Eq, Drop)]
pub enum KeyFault {
    /// There aren't 60 bytes, or one of the two types isn't known.
    KeyShape,
    /// The number of levels isn't 1 to 8.
    Levels,
}

/// An HSS public key (RFC 8554, section 6.1), seen as its 60 bytes. Its types are those with SHA-256 and values of 32
/// bytes: 5 to 9 of LMS, 1 to 4 of LM-OTS.
#[derive(Clone, Copy, Debug, Drop)]
pub struct HssPublic {
    key: [u8; 60],
}

impl Model for HssPublic {
    ghost use Rattle.std.specs.Prelude.{ℕ, List};
    ghost use Rattle.hash_kit.specs.Inside.{IsHssKey};

    ghost Value = { List ℕ };

    ghost view = { λ k. k.key };

    ghost invariant = { λ k. IsHssKey k.key };

    ghost inverse = { λ v. record { key = v } };

    ghost inverse_ok = { λ k is i. record { key = k.key } };
}

impl HssPublic {
    /// The key of these 60 bytes: the number of levels in four bytes, then the LMS public key of the top tree.
    pub fn read(bytes: &[u8]) -> Result<HssPublic, KeyFault>
        ensures value { IfOk result (λ key. key ≡ bytes.now) }
        ensures fault { (fault : KeyFault) → (result ≡ Err fault) ↔ (key_fault bytes.now ≡ Some fault) }
    {
        if bytes.len() != SIZE || !has_types(&bytes[4..]) {
            return Err(KeyFault::KeyShape);
        }
        if !has_levels(bytes) {
            return Err(KeyFault::Levels);
        }
        let mut key = [0; SIZE];
        key.copy_from_slice(bytes);
        Ok(HssPublic { key })
    }

    /// The 60 bytes.
    pub fn bytes(&self) -> &[u8]
        ensures bytes { result.now ≡ self.now }
        ensures size { length result.now ≡ 60 }
    {
        &self.key
    }

    /// The number of levels, 1 to 8.
    pub fn levels(&self) -> u32
        ensures value { result ≡ levels_of self.now }
        ensures some { 0 < result }
        ensures most { result ≤ 8 }
    {
        u32_at(&self.key, 0)
    }

    /// The LMS public key of the top tree, in its 56 bytes.
    pub fn top_key(&self) -> &[u8]
        ensures bytes { result.now ≡ top_key_of self.now }
        ensures size { length result.now ≡ 56 }
    {
        &self.key[4..]
    }
}

/// The number in the four bytes from this place on, the greatest byte first.
pub fn u32_at(bytes: &[u8], place: usize) -> u32
    requires { place + 4 ≤ length bytes.now }
    ensures { result ≡ u32_at place bytes.now }
{
    u32::from_be_bytes([
        bytes[place],
        bytes[place + 1],
        bytes[place + 2],
        bytes[place + 3],
    ])
}

/// Whether both types of an LMS public key (RFC 8554, section 5.3) are known: 5 to 9 of LMS, 1 to 4 of LM-OTS.
pub fn has_types(key: &[u8]) -> bool
    requires { 8 ≤ length key.now }
    ensures { result ≡ has_types key.now }
{
    let lms_type = u32_at(key, 0);
    let ots_type = u32_at(key, 4);
    4 < lms_type && lms_type < 10 && 0 < ots_type && ots_type < 5
}

fn has_levels(key: &[u8]) -> bool
    requires { 4 ≤ length key.now }
    ensures { result ≡ has_levels key.now }
{
    let levels = u32_at(key, 0);
    0 < levels && levels < 9
}

impl PartialEq for HssPublic {
    ghost eq = { λ a b. pointwise nat_eq a b };

    ghost laws = { partial_equiv_from_equiv nat_list_eq_equiv };

    fn eq(&self, other: &Self) -> bool {
        self.bytes() == other.bytes()
    }
}

impl Eq for HssPublic {
    ghost laws = { nat_list_eq_equiv };
}
