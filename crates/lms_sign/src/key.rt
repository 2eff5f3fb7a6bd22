ghost use Rattle.std.specs.Prelude.{◌≡◌, ◌↔◌, ◌⊎◌, ◌+◌, ◌-◌, ◌*◌, ◌<◌, ◌≤◌, ◌++◌, IfOk, OnOk, Err};
ghost use Rattle.lms_verify.specs.Lms.{height_of};
ghost use Rattle.lms_verify.specs.Hss.{Verifies};
ghost use Rattle.lms_sign.specs.Hss.{signatures_of, tree_at, hss_public, hss_signature};
ghost use Rattle.lms_sign.specs.Inside.{IsKey, signed_below};
ghost use Rattle.lms_sign.specs.declared.fault.SignFault.TheVariants.{Exhausted};

use crate::fault::SignFault;
use crate::secret::HssSecret;
use crate::tree::Tree;
use hash_kit::HssPublic;
use lms_verify::height_of;
use std::alloc::{AllocError, Global};
use std::marker::Model;

/// A key of HSS (RFC 8554, section 6), seen as what it comes from: the seed, the number of levels and the two types. It
/// keeps the nodes of its top tree.
#[derive(Drop)]
pub struct HssKey {
    secret: HssSecret,
    top: Tree,
    public: HssPublic,
}

impl Model for HssKey {
    ghost use Rattle.std.specs.Prelude.{◌≡◌};
    ghost use Rattle.lms_sign.specs.declared.secret.HssSecret.{HssSecret};
    ghost use Rattle.lms_sign.specs.Hss.{tree_numbered, hss_public};
    ghost use Rattle.lms_sign.specs.Inside.{IsKey};

    ghost Value = { HssSecret };

    ghost view = { λ k. k.secret };

    ghost invariant = { λ k. IsKey k.secret × (k.top ≡ tree_numbered k.secret 0 0) × (k.public ≡ hss_public k.secret) };
}

/// The key of a seed, with so many levels of trees of an LMS type, 5 or 6, and an LM-OTS type, 1 to 4. It makes the top
/// tree, whose 2^h leaves take p 2^w hashes each.
pub fn from_seed(
    alloc: Global,
    seed: &[u8; 32],
    levels: u32,
    lms: u32,
    ots: u32,
) -> Result<HssKey, AllocError>
    requires lms { (lms ≡ 5) ⊎ (lms ≡ 6) }
    requires ots_low { 1 ≤ ots }
    requires ots_high { ots ≤ 4 }
    requires levels { 1 ≤ levels }
    requires height { height_of lms * levels ≤ 20 }
    ensures { IfOk result (λ key. key
        ≡ record { seed = seed.now; levels = levels; lms_type = lms; ots_type = ots }) }
{
    let secret = HssSecret {
        seed: *seed,
        levels,
        lms_type: lms,
        ots_type: ots,
    };
    let top = Tree::grow(alloc, secret.tree_numbered(0, 0))?;
    let mut bytes = Vec::with_capacity(alloc, 60)?;
    bytes.extend_from_slice(&levels.to_be_bytes())?;
    bytes.extend_from_slice(&top.public(alloc)?)?;
    let Ok(public) = HssPublic::read(&bytes) else {
        unreachable!();
    };
    Ok(HssKey {
        secret,
        top,
        public,
    })
}

impl HssKey {
    /// The public key.
    pub fn public(&self) -> HssPublic
        ensures { result ≡ hss_public self.now }
    {
        self.public
    }

    /// How many indexes sign, one message each.
    pub fn leaves(&self) -> u32
        ensures { result ≡ signatures_of self.now }
    {
        1 << (height_of(self.secret.lms_type) * self.secret.levels)
    }

    /// The signature of a message by an index (RFC 8554, section 6.2). The tree of each level but the top is made for it,
    /// once, and that is nearly all of its cost: 2^h p 2^w hashes for each of these levels.
    pub fn sign(&self, alloc: Global, index: u32, message: &[u8]) -> Result<Vec<u8>, SignFault>
        ensures exhausted { (result ≡ Err Exhausted) ↔ (signatures_of self.now ≤ index) }
        ensures signature { IfOk result (λ s. s.items ≡ hss_signature self.now index message.now) }
        ensures verifies { IfOk result (λ s. Verifies (hss_public self.now) message.now s.items) }
    {
        if index >= self.leaves() {
            return Err(SignFault::Exhausted);
        }
        let mut out = Vec::new(alloc);
        out.extend_from_slice(&(self.secret.levels - 1).to_be_bytes())?;
        self.sign_below(alloc, &self.top, 0, index, message, &mut out)?;
        Ok(out)
    }

    // Writes the signatures from a level on, of which this is the tree.
    fn sign_below(
        &self,
        alloc: Global,
        tree: &Tree,
        level: u32,
        index: u32,
        message: &[u8],
        out: &mut Vec<u8>,
    ) -> Result<(), AllocError>
        requires level { level < self.now.levels }
        requires tree { tree.now ≡ tree_at self.now index level }
        ensures { OnOk result (out.new.items
            ≡ out.old.items ++ signed_below (self.now.levels - 1 - level) self.now index level message.now) }
    {
        let leaf = self.secret.leaf_at(index, level);
        if level + 1 == self.secret.levels {
            return tree.write_signature(leaf, message, out);
        }
        let next = Tree::grow(alloc, self.secret.tree_at(index, level + 1))?;
        let key = next.public(alloc)?;
        tree.write_signature(leaf, &key, out)?;
        out.extend_from_slice(&key)?;
        self.sign_below(alloc, &next, level + 1, index, message, out)
    }
}
