// A payload, read byte by byte from the left.
ghost use Rattle.std.specs.Prelude.{◌≡◌, ◌∷◌, ◌+◌, ◌≤◌, ◌^◌, ◌<◌, length, IfOk, IfErr, OnOk, Ok, Err, Some, None};
ghost use Rattle.entry_codec.specs.Form.{some_bytes, nothing_more};
ghost use Rattle.entry_codec.specs.Fault.{digit, ranged, hash_form, counted_form, kind_form, entry_form};
ghost use Rattle.entry_codec.specs.Inside.{read_at, place_of, kind_byte};

use crate::fault::EntryFault;
use crate::kind::Kind;
use hash_kit::HashAlg;
use std::marker::Model;

/// What is left of a payload. It hands out slices of it, and copies none.
#[derive(Debug, Drop)]
pub(crate) struct Payload<'a> {
    left: &'a [u8],
    place: u64,
}

impl<'a> Model for Payload<'a> {
    ghost use Rattle.std.specs.Prelude.{◌+◌, ◌^◌, ◌<◌, length};
    ghost use Rattle.entry_codec.specs.Form.{Unread};

    ghost Value = { Unread };

    ghost view = { λ p. record { place = p.place; bytes = p.left.now } };

    ghost invariant = { λ p. p.place + length p.left.now < 2 ^ 63 };
}

impl<'a> Payload<'a> {
    /// A whole payload.
    pub(crate) fn new(bytes: &'a [u8]) -> Payload<'a>
        ensures { result ≡ record { place = 0; bytes = bytes.now } }
    {
        Payload {
            left: bytes,
            place: 0,
        }
    }

    /// The place of the next byte.
    pub(crate) fn place(&self) -> u64
        ensures { result ≡ self.now.place }
    {
        self.place
    }

    // The next byte of a number from `low` to `high`, whose bytes so far are worth `before`. A byte is now worth `worth`.
    #[tactic(auto, unfolding(crate::specs::Form::reads, crate::specs::Fault::digit))]
    fn digit(&mut self, low: u64, high: u64, worth: u64, before: u64) -> Result<u64, EntryFault>
        requires high { high < 2 ^ 32 }
        requires worth { worth < 2 ^ 32 }
        requires before { before < 2 ^ 32 }
        ensures ok { IfOk result (λ n. read_at (digit low high worth before) self.old ≡ Ok (n, self.new)) }
        ensures above { IfOk result (λ n. low < n + worth) }
        ensures below { IfOk result (λ n. n ≤ high) }
        ensures place { OnOk result (self.new.place ≡ self.old.place + 1) }
        ensures fault { IfErr result (λ e. read_at (digit low high worth before) self.old ≡ Err (place_of e)) }
    {
        let Some((byte, left)) = self.left.split_first() else {
            return Err(EntryFault::Bad { place: self.place });
        };
        let least = before + u64::from(*byte) * worth;
        if low >= least + worth || least > high {
            return Err(EntryFault::Bad { place: self.place });
        }
        self.left = left;
        self.place += 1;
        Ok(least)
    }

    /// A number of this range.
    #[tactic(auto, unfolding(crate::specs::Fault::ranged), using(crate::proofs::Forms::reads_followed))]
    pub(crate) fn ranged(&mut self, low: u64, high: u64) -> Result<u32, EntryFault>
        requires { high < 2 ^ 32 }
        ensures ok { IfOk result (λ n. read_at (ranged low high) self.old ≡ Ok (n, self.new)) }
        ensures above { IfOk result (λ n. low ≤ n) }
        ensures below { IfOk result (λ n. n ≤ high) }
        ensures place { OnOk result (self.new.place ≡ self.old.place + 4) }
        ensures fault { IfErr result (λ e. read_at (ranged low high) self.old ≡ Err (place_of e)) }
    {
        let first = self.digit(low, high, 16_777_216, 0)?;
        let second = self.digit(low, high, 65_536, first)?;
        let third = self.digit(low, high, 256, second)?;
        let number = self.digit(low, high, 1, third)?;
        Ok(number as u32)
    }

    /// So many bytes.
    #[tactic(auto, using(crate::proofs::Forms::reads_some_bytes, crate::proofs::Forms::bytes_end))]
    pub(crate) fn bytes(&mut self, count: u32) -> Result<&'a [u8], EntryFault>
        ensures ok { IfOk result (λ b. read_at (some_bytes count) self.old ≡ Ok (b.now, self.new)) }
        ensures count { IfOk result (λ b. length b.now ≡ count) }
        ensures place { OnOk result (self.new.place ≡ self.old.place + count) }
        ensures fault { IfErr result (λ e. read_at (some_bytes count) self.old ≡ Err (place_of e)) }
    {
        let count = count as usize;
        if self.left.len() < count {
            return Err(EntryFault::Bad {
                place: self.place + self.left.len() as u64,
            });
        }
        let (bytes, left) = self.left.split_at(count);
        self.left = left;
        self.place += count as u64;
        Ok(bytes)
    }

    /// A length of at most `most`, and that many bytes.
    #[tactic(auto, unfolding(crate::specs::Fault::counted_form), using(crate::proofs::Forms::reads_followed))]
    pub(crate) fn counted(&mut self, most: u64) -> Result<&'a [u8], EntryFault>
        requires { most < 2 ^ 32 }
        ensures ok { IfOk result (λ b. read_at (counted_form most) self.old ≡ Ok (b.now, self.new)) }
        ensures fits { IfOk result (λ b. length b.now ≤ most) }
        ensures place { IfOk result (λ b. self.new.place ≡ self.old.place + 4 + length b.now) }
        ensures fault { IfErr result (λ e. read_at (counted_form most) self.old ≡ Err (place_of e)) }
    {
        let count = self.ranged(0, most)?;
        self.bytes(count)
    }

    /// The kind of an entry.
    #[tactic(auto, unfolding(crate::specs::Form::reads, crate::specs::Fault::entry_form))]
    pub(crate) fn kind(&mut self) -> Result<Kind, EntryFault>
        ensures ok { IfOk result (λ k. read_at entry_form self.old ≡ read_at (kind_form (kind_byte k)) self.new) }
        ensures byte { IfOk result (λ k. self.old.bytes ≡ kind_byte k ∷ self.new.bytes) }
        ensures place { OnOk result (self.new.place ≡ self.old.place + 1) }
        ensures fault { IfErr result (λ e. read_at entry_form self.old ≡ Err (place_of e)) }
    {
        let Some((byte, left)) = self.left.split_first() else {
            return Err(EntryFault::Bad { place: self.place });
        };
        let kind = match *byte {
            1 => Kind::Deposit,
            2 => Kind::Seal,
            3 => Kind::RenewStamps,
            4 => Kind::RenewTrees,
            5 => Kind::SetPolicy,
            _ => return Err(EntryFault::Bad { place: self.place }),
        };
        self.left = left;
        self.place += 1;
        Ok(kind)
    }

    /// The end: nothing more may stand here.
    pub(crate) fn finish(&self) -> Result<(), EntryFault>
        ensures ok { OnOk result (nothing_more self.now ≡ None) }
        ensures fault { IfErr result (λ e. nothing_more self.now ≡ Some (place_of e)) }
    {
        if self.left.is_empty() {
            Ok(())
        } else {
            Err(EntryFault::Bad { place: self.place })
        }
    }

    /// The byte of a hash algorithm.
    #[tactic(auto, unfolding(crate::specs::Form::reads, crate::specs::Fault::hash_form))]
    pub(crate) fn hash(&mut self) -> Result<HashAlg, EntryFault>
        ensures ok { IfOk result (λ h. read_at hash_form self.old ≡ Ok (h, self.new)) }
        ensures fault { IfErr result (λ e. read_at hash_form self.old ≡ Err (place_of e)) }
    {
        let Some((byte, left)) = self.left.split_first() else {
            return Err(EntryFault::Bad { place: self.place });
        };
        let hash = match *byte {
            1 => HashAlg::Sha256,
            2 => HashAlg::Sha384,
            3 => HashAlg::Sha512,
            _ => return Err(EntryFault::Bad { place: self.place }),
        };
        self.left = left;
        self.place += 1;
        Ok(hash)
    }
}
