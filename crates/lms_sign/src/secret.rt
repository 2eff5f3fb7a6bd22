ghost use Rattle.std.specs.Prelude.{◌≡◌, ◌+◌, ◌-◌, ◌*◌, ◌^◌, ◌<◌, ◌≤◌};
ghost use Rattle.hash_kit.specs.Hashing.{Hashes};
ghost use Rattle.lms_verify.specs.Lms.{height_of};
ghost use Rattle.lms_sign.specs.Hss.{leaf_at, tree_name, tree_numbered, tree_at};
ghost use Rattle.lms_sign.specs.Inside.{IsTree, IsKey};

use hash_kit::{HashAlg, Hasher};
use lms_verify::height_of;

/// What all one-time keys of a tree come from (RFC 8554, appendix A): the types, the identifier I and SEED.
#[derive(Clone, Copy, Debug, Drop)]
pub(crate) struct TreeSecret {
    pub(crate) lms_type: u32,
    pub(crate) ots_type: u32,
    pub(crate) identifier: [u8; 16],
    pub(crate) seed: [u8; 32],
}

/// What all trees of a key come from: a seed, the number of levels and the types of each tree.
#[derive(Clone, Copy, Debug, Drop)]
pub(crate) struct HssSecret {
    pub(crate) seed: [u8; 32],
    pub(crate) levels: u32,
    pub(crate) lms_type: u32,
    pub(crate) ots_type: u32,
}

impl HssSecret {
    // A hasher of the name of a tree.
    fn named(&self, level: u32, number: u32) -> Hasher
        ensures { Hashes result HashAlg.Sha256 (tree_name self.now level number) }
    {
        let mut hasher = Hasher::new(HashAlg::Sha256);
        hasher.update(&self.seed);
        hasher.update(&level.to_be_bytes());
        hasher.update(&number.to_be_bytes());
        hasher
    }

    // The first 16 bytes of the hash of a tree's name and u8str(1).
    fn identifier(&self, level: u32, number: u32) -> [u8; 16]
        ensures { result ≡ (tree_numbered self.now level number).identifier }
    {
        let mut hasher = self.named(level, number);
        hasher.update(&[1]);
        let mut identifier = [0; 16];
        identifier.copy_from_slice(&hasher.finish().bytes()[..16]);
        identifier
    }

    // The hash of a tree's name.
    fn seed(&self, level: u32, number: u32) -> [u8; 32]
        ensures { result ≡ (tree_numbered self.now level number).seed }
    {
        let mut seed = [0; 32];
        seed.copy_from_slice(self.named(level, number).finish().bytes());
        seed
    }

    // The tree of a level with this number.
    pub(crate) fn tree_numbered(&self, level: u32, number: u32) -> TreeSecret
        requires { IsKey self.now }
        ensures value { result ≡ tree_numbered self.now level number }
        ensures known { IsTree result }
    {
        TreeSecret {
            lms_type: self.lms_type,
            ots_type: self.ots_type,
            identifier: self.identifier(level, number),
            seed: self.seed(level, number),
        }
    }

    // The height of all trees from this level on: so many bits of an index are theirs.
    fn bits_from(&self, level: u32) -> u32
        requires key { IsKey self.now }
        requires level { level ≤ self.now.levels }
        ensures value { result ≡ height_of self.now.lms_type * (self.now.levels - level) }
        ensures most { result ≤ 20 }
    {
        height_of(self.lms_type) * (self.levels - level)
    }

    // The tree of a level that an index uses.
    pub(crate) fn tree_at(&self, index: u32, level: u32) -> TreeSecret
        requires key { IsKey self.now }
        requires level { level < self.now.levels }
        ensures value { result ≡ tree_at self.now index level }
        ensures known { IsTree result }
    {
        self.tree_numbered(level, index >> self.bits_from(level))
    }

    // The leaf that signs in that tree.
    pub(crate) fn leaf_at(&self, index: u32, level: u32) -> u32
        requires key { IsKey self.now }
        requires level { level < self.now.levels }
        ensures value { result ≡ leaf_at self.now index level }
        ensures within { result < 2 ^ height_of self.now.lms_type }
    {
        (index >> self.bits_from(level + 1)) % (1 << height_of(self.lms_type))
    }
}
