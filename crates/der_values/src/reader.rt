ghost use Rattle.std.specs.Prelude.{◌≡◌, ◌↔◌, ◌+◌, ◌^◌, ◌<◌, ◌++◌, length, slice_get, IsOk, IfOk, IfErr, IfSome, OnOk, OnErr, Ok, Err, Some};
ghost use Rattle.std.specs.Option.{option_map};
ghost use Rattle.der_values.specs.Value.{BeginsWithValue};
ghost use Rattle.der_values.specs.Steps.{Gives};
ghost use Rattle.der_values.specs.Next.{is_empty, next_of, expect_of, finish_of, seen, IsValue};
ghost use Rattle.der_values.specs.Shape.{any_tag, tagged};
ghost use Rattle.der_values.specs.Reading.{optional_of};

use crate::fault::{DerFault, DerKind};
use crate::header::split_value;
use crate::tlv::Tlv;
use std::marker::Model;

/// A reader of values that stand one after the other. It hands out slices of the bytes, and copies none.
/// A reader that answered a fault stays where it was.
#[derive(Debug, Drop)]
pub struct Reader<'a> {
    left: &'a [u8],
    place: u64,
}

impl<'a> Model for Reader<'a> {
    ghost use Rattle.std.specs.Prelude.{◌+◌, ◌^◌, ◌<◌, length};
    ghost use Rattle.der_values.specs.Input.{Input};

    ghost Value = { Input };

    ghost view = { λ r. record { place = r.place; left = r.left.now } };

    ghost invariant = { λ r. r.place + length r.left.now < 2 ^ 63 };
}

impl<'a> Reader<'a> {
    /// A reader of the bytes. The first of them is at the place `base`.
    pub fn new(bytes: &'a [u8], base: u64) -> Reader<'a>
        requires { base + length bytes.now < 2 ^ 63 }
        ensures { result ≡ record { place = base; left = bytes.now } }
    {
        Reader {
            left: bytes,
            place: base,
        }
    }

    /// Whether nothing is left.
    pub fn at_end(&self) -> bool
        ensures { result ≡ is_empty self.now.left }
    {
        self.left.is_empty()
    }

    /// The next byte. It is still there for the next call.
    pub fn next_tag(&self) -> Option<u8>
        ensures { result ≡ slice_get self.now.left 0 }
    {
        self.left.first().copied()
    }

    /// The next value.
    #[tactic(auto, unfolding(crate::specs::Next::next_of))]
    pub fn next(&mut self) -> Result<Tlv<'a>, DerFault>
        ensures exactly { IsOk result ↔ BeginsWithValue self.old.left }

        // The value is at the front, and the reader stands after it.
        ensures ok { IfOk result (λ t. next_of self.old ≡ Ok (seen t, self.new)) }
        ensures value { IfOk result IsValue }
        ensures front { IfOk result (λ t. self.old.left ≡ t.whole.now ++ self.new.left) }
        ensures tag { IfOk result (λ t. slice_get self.old.left 0 ≡ Some t.tag) }
        ensures shorter { OnOk result (length self.new.left < length self.old.left) }

        // Else the fault is the first one, and the reader stays.
        ensures fault { IfErr result (λ e. next_of self.old ≡ Err e) }
        ensures err { OnErr result (self.new ≡ self.old) }
    {
        let (value, left) = split_value(self.left, self.place)?;
        self.place += value.whole.len() as u64;
        self.left = left;
        Ok(value)
    }

    /// The next value, which has to be of this tag.
    #[tactic(auto, unfolding(crate::specs::Next::next_of, crate::specs::Next::expect_of))]
    pub fn expect(&mut self, tag: u8) -> Result<Tlv<'a>, DerFault>
        ensures ok { IfOk result (λ t. expect_of tag self.old ≡ Ok (seen t, self.new)) }
        ensures value { IfOk result IsValue }
        ensures tag { IfOk result (λ t. t.tag ≡ tag) }
        ensures shorter { OnOk result (length self.new.left < length self.old.left) }
        ensures fault { IfErr result (λ e. expect_of tag self.old ≡ Err e) }
        ensures err { OnErr result (self.new ≡ self.old) }
    {
        let (value, left) = split_value(self.left, self.place)?;
        if value.tag != tag {
            return Err(DerFault::at(self.place, DerKind::WrongTag));
        }
        self.place += value.whole.len() as u64;
        self.left = left;
        Ok(value)
    }

    /// The next value, exactly where the next byte is this tag.
    #[tactic(auto, unfolding(crate::specs::Next::next_of, crate::specs::Reading::optional_of))]
    pub fn optional(&mut self, tag: u8) -> Result<Option<Tlv<'a>>, DerFault>
        ensures ok { IfOk result (λ o. optional_of (tagged tag) self.old ≡ Ok (option_map seen o, self.new)) }
        ensures value { IfOk result (λ o. IfSome o IsValue) }
        ensures tag { IfOk result (λ o. IfSome o (λ t. t.tag ≡ tag)) }
        ensures fault { IfErr result (λ e. optional_of (tagged tag) self.old ≡ Err e) }
        ensures err { OnErr result (self.new ≡ self.old) }
    {
        if self.next_tag() == Some(tag) {
            Ok(Some(self.next()?))
        } else {
            Ok(None)
        }
    }

    /// The next value, exactly where a byte is left.
    #[tactic(auto, unfolding(crate::specs::Next::next_of, crate::specs::Reading::optional_of))]
    pub fn further(&mut self) -> Result<Option<Tlv<'a>>, DerFault>
        ensures ok { IfOk result (λ o. optional_of any_tag self.old ≡ Ok (option_map seen o, self.new)) }
        ensures value { IfOk result (λ o. IfSome o IsValue) }
        ensures fault { IfErr result (λ e. optional_of any_tag self.old ≡ Err e) }
        ensures err { OnErr result (self.new ≡ self.old) }
    {
        if self.at_end() {
            Ok(None)
        } else {
            Ok(Some(self.next()?))
        }
    }

    /// That nothing is left.
    #[tactic(auto, unfolding(crate::specs::Next::finish_of))]
    pub fn finish(&self) -> Result<(), DerFault>
        ensures { Gives (λ _. tt) result (finish_of self.now) }
    {
        if self.left.is_empty() {
            Ok(())
        } else {
            Err(DerFault::at(self.place, DerKind::Trailing))
        }
    }
}
