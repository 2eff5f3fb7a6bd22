ghost use Rattle.std.proofs.Props.{props};
ghost use Rattle.evidence_syntax.specs.Stamps.{stamp_seen, chains_seen};
ghost use Rattle.evidence_verify.specs.InsideChains.{AreShort, HasTree};

use evidence_syntax::{Ats, Chain};

/// An archive time-stamp in its place.
#[derive(Clone, Copy)]
pub(crate) struct Place<'r, 'a> {
    /// The chains before its own.
    pub older: &'r [Chain<'a>],
    /// The number of its chain.
    pub chain: u32,
    /// Its number in the chain.
    pub stamp: u32,
    pub ats: &'r Ats<'a>,
    pub ghost short: { AreShort (chains_seen older.now) },
    pub ghost tree: { HasTree (stamp_seen ats.now) } by { Prim.hlevel props },
}
