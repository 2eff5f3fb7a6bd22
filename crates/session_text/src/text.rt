// The text of an input, read word by word from the left.
ghost use Rattle.std.specs.Prelude.{◌≡◌, ◌+◌, ◌≤◌, ◌^◌, ◌<◌, length, take, drop, position, IfOk, IfErr, OnOk, Ok, Err, Some, None, IsTrue};
ghost use Rattle.std.specs.List.{list_all};
ghost use Rattle.std.specs.Char.{is_ascii_digit};
ghost use Rattle.civil_moment.specs.Moment.{Text as Says};
ghost use Rattle.civil_moment.specs.Fault.{first_fault};
ghost use Rattle.der_values.specs.Next.{is_empty};
ghost use Rattle.session_text.specs.Words.{ends_word, word_length, word_at, separator_at, keyword_at, leads_with_zero, is_number, number_of, number_at, time_in, time_at};
ghost use Rattle.session_text.specs.Counted.{mark_on, bytes_at, counted_at};
ghost use Rattle.session_text.specs.Inside.{ReadsTime};

use crate::shape::{ShapeFault, ShapeKind};
use civil_moment::{Moment, read_generalized};
use std::marker::Model;

/// The most digits of a number.
const MOST_DIGITS: usize = 20;

/// What is left of an input. It hands out slices of it, and copies none.
#[derive(Debug, Drop)]
pub(crate) struct Text<'a> {
    left: &'a [u8],
    place: u64,
}

impl<'a> Model for Text<'a> {
    ghost use Rattle.std.specs.Prelude.{◌+◌, ◌^◌, ◌<◌, length};
    ghost use Rattle.session_text.specs.Unread.{Unread};

    ghost Value = { Unread };

    ghost view = { λ t. record { place = t.place; bytes = t.left.now } };

    ghost invariant = { λ t. t.place + length t.left.now < 2 ^ 63 };
}

impl<'a> Text<'a> {
    /// A whole input.
    pub(crate) fn new(bytes: &'a [u8]) -> Text<'a>
        ensures { result ≡ record { place = 0; bytes = bytes.now } }
    {
        Text {
            left: bytes,
            place: 0,
        }
    }

    pub(crate) fn at_end(&self) -> bool
        ensures { result ≡ is_empty self.now.bytes }
    {
        self.left.is_empty()
    }

    pub(crate) fn place(&self) -> u64
        ensures { result ≡ self.now.place }
    {
        self.place
    }

    // The next bytes, so many of them.
    fn step(&mut self, count: usize) -> &'a [u8]
        requires { count ≤ length self.old.bytes }
        ensures taken { result.now ≡ take count self.old.bytes }
        ensures left { self.new ≡ record { place = self.old.place + count; bytes = drop count self.old.bytes } }
    {
        let (taken, left) = self.left.split_at(count);
        self.left = left;
        self.place += count as u64;
        taken
    }

    /// The word that stands here.
    #[tactic(auto, unfolding(crate::specs::Words::word_at))]
    pub(crate) fn word(&mut self) -> Result<&'a [u8], ShapeFault>
        ensures ok { IfOk result (λ w. word_at self.old ≡ Ok (w.now, self.new)) }
        ensures fault { IfErr result (λ e. word_at self.old ≡ Err e) }
    {
        if self.left.is_empty() {
            return Err(ShapeFault::at(self.place, ShapeKind::Cut));
        }
        let length = word_length(self.left);
        Ok(self.step(length))
    }

    /// The space or the line feed that has to stand here.
    #[tactic(auto, unfolding(crate::specs::Words::separator_on))]
    pub(crate) fn separator(&mut self, separator: u8) -> Result<(), ShapeFault>
        ensures ok { OnOk result (separator_at separator self.old ≡ Ok (tt, self.new)) }
        ensures fault { IfErr result (λ e. separator_at separator self.old ≡ Err e) }
    {
        let Some((byte, left)) = self.left.split_first() else {
            return Err(ShapeFault::at(self.place, ShapeKind::Cut));
        };
        if *byte != separator {
            return Err(ShapeFault::at(self.place, ShapeKind::Word));
        }
        self.left = left;
        self.place += 1;
        Ok(())
    }

    /// This word, and the separator behind it.
    #[tactic(auto, unfolding(crate::specs::Words::keyword_at))]
    pub(crate) fn keyword(&mut self, name: &[u8], separator: u8) -> Result<(), ShapeFault>
        ensures ok { OnOk result (keyword_at name.now separator self.old ≡ Ok (tt, self.new)) }
        ensures fault { IfErr result (λ e. keyword_at name.now separator self.old ≡ Err e) }
    {
        let place = self.place;
        let word = self.word()?;
        if word != name {
            return Err(ShapeFault::at(place, ShapeKind::Word));
        }
        self.separator(separator)
    }

    /// A number that is at most this one, and the separator behind it.
    #[tactic(auto, unfolding(crate::specs::Words::number_at, crate::specs::Words::number_in))]
    pub(crate) fn number(&mut self, most: u64, separator: u8) -> Result<u64, ShapeFault>
        ensures ok { IfOk result (λ n. number_at most separator self.old ≡ Ok (n, self.new)) }
        ensures fault { IfErr result (λ e. number_at most separator self.old ≡ Err e) }
    {
        let place = self.place;
        let word = self.word()?;
        if !is_number(word) {
            return Err(ShapeFault::at(place, ShapeKind::Number));
        }
        let number = number_of(word);
        if number > u128::from(most) {
            return Err(ShapeFault::at(place, ShapeKind::Limit));
        }
        self.separator(separator)?;
        Ok(number as u64)
    }

    /// A moment, and the separator behind it.
    #[tactic(auto, unfolding(crate::specs::Words::time_at))]
    pub(crate) fn moment(&mut self, separator: u8) -> Result<Moment, ShapeFault>
        ensures ok { IfOk result (λ m. ReadsTime separator self.old self.new m) }
        ensures fault { IfErr result (λ e. time_at separator self.old ≡ Err e) }
    {
        let place = self.place;
        let word = self.word()?;
        let moment = moment_of(word, place)?;
        self.separator(separator)?;
        Ok(moment)
    }

    /// So many bytes, and the line feed behind them.
    #[tactic(auto, unfolding(crate::specs::Counted::bytes_at, crate::specs::Counted::mark_on))]
    pub(crate) fn bytes(&mut self, count: u64) -> Result<&'a [u8], ShapeFault>
        ensures ok { IfOk result (λ b. bytes_at count self.old ≡ Ok (b.now, self.new)) }
        ensures fault { IfErr result (λ e. bytes_at count self.old ≡ Err e) }
    {
        let length = self.left.len() as u64;
        if length < count {
            return Err(ShapeFault::at(self.place + length, ShapeKind::Cut));
        }
        let bytes = self.step(count as usize);
        self.mark()?;
        Ok(bytes)
    }

    // The line feed behind counted bytes.
    #[tactic(auto, unfolding(crate::specs::Counted::mark_on))]
    fn mark(&mut self) -> Result<(), ShapeFault>
        ensures ok { OnOk result (mark_on self.old.place self.old.bytes ≡ Ok (tt, self.new)) }
        ensures fault { IfErr result (λ e. mark_on self.old.place self.old.bytes ≡ Err e) }
    {
        let Some((byte, left)) = self.left.split_first() else {
            return Err(ShapeFault::at(self.place, ShapeKind::Cut));
        };
        if *byte != b'\n' {
            return Err(ShapeFault::at(self.place, ShapeKind::Mark));
        }
        self.left = left;
        self.place += 1;
        Ok(())
    }

    /// A word, a number that is at most this one, and so many bytes.
    #[tactic(auto, unfolding(crate::specs::Counted::counted_at))]
    pub(crate) fn counted(&mut self, name: &[u8], most: u64) -> Result<&'a [u8], ShapeFault>
        ensures ok { IfOk result (λ b. counted_at name.now most self.old ≡ Ok (b.now, self.new)) }
        ensures fault { IfErr result (λ e. counted_at name.now most self.old ≡ Err e) }
    {
        self.keyword(name, b' ')?;
        let count = self.number(most, b'\n')?;
        self.bytes(count)
    }
}

// The moment that a word says.
#[tactic(auto, using(civil_moment::proofs::FirstFault::no_fault))]
fn moment_of(word: &[u8], place: u64) -> Result<Moment, ShapeFault>
    ensures says { IfOk result (Says word.now) }
    ensures time { OnOk result (time_in place word.now (first_fault word.now) ≡ Ok word.now) }
    ensures fault { IfErr result (λ e. time_in place word.now (first_fault word.now) ≡ Err e) }
{
    match read_generalized(word) {
        Ok(moment) => Ok(moment),
        Err(_) => Err(ShapeFault::at(place, ShapeKind::Moment)),
    }
}

// How many bytes stand before the first space or line feed, or the end.
fn word_length(bytes: &[u8]) -> usize
    ensures length { result ≡ word_length bytes.now }
    ensures within { result ≤ length bytes.now }
{
    match word_end(bytes) {
        Some(length) => length,
        None => bytes.len(),
    }
}

fn word_end(bytes: &[u8]) -> Option<usize>
    ensures { result ≡ position ends_word bytes.now }
{
    bytes
        .iter()
        .position(|byte| *byte == b' ' || *byte == b'\n')
}

fn is_number(word: &[u8]) -> bool
    ensures { result ≡ is_number word.now }
{
    are_digits(word) && !word.is_empty() && word.len() <= MOST_DIGITS && !leads_with_zero(word)
}

fn are_digits(word: &[u8]) -> bool
    ensures { result ≡ list_all is_ascii_digit word.now }
{
    word.iter().all(|byte| byte.is_ascii_digit())
}

fn leads_with_zero(word: &[u8]) -> bool
    ensures { result ≡ leads_with_zero word.now }
{
    match word {
        [digit, _, ..] => *digit == b'0',
        _ => false,
    }
}

// The number of at most twenty decimal digits.
fn number_of(word: &[u8]) -> u128
    requires { IsTrue (is_number word.now) }
    ensures { result ≡ number_of word.now }
{
    let mut number = 0;
    for digit in word {
        number = number * 10 + u128::from(*digit - b'0');
    }
    number
}
