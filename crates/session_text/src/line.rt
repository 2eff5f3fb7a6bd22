// The text of a line, added part by part.
ghost use Rattle.std.specs.Prelude.{◌≡◌, ◌+◌, ◌*◌, [], ◌∷◌, ◌++◌, length, decimal, OnOk};
ghost use Rattle.hex.specs.Hex.{encode_lower};
ghost use Rattle.hash_kit.specs.Algorithm.{word_of};
ghost use Rattle.session_text.specs.Counted.{counted_text};
ghost use Rattle.session_text.specs.Lines.{Adds, AddsMoment, spaced};

use civil_moment::{Moment, add_generalized};
use hash_kit::HashAlg;
use itoa::Buffer;
use std::alloc::AllocError;

/// The most bytes of a line, its line feed among them.
pub const LONGEST_LINE: usize = 128;

/// Adds words.
pub fn add_words(out: &mut Vec<u8>, words: &[u8]) -> Result<(), AllocError>
    ensures { Adds words.now (length words.now) out.old out.new result }
{
    out.extend_from_slice(words)
}

/// Adds a number in decimal digits.
pub fn add_number(out: &mut Vec<u8>, number: u64) -> Result<(), AllocError>
    ensures { Adds (decimal number) 20 out.old out.new result }
{
    let mut spelling = Buffer::new();
    out.extend_from_slice(spelling.format(number).as_bytes())
}

/// Adds numbers, each behind a space.
pub fn add_numbers(out: &mut Vec<u8>, numbers: &[u64]) -> Result<(), AllocError>
    ensures { Adds (spaced numbers.now) (21 * length numbers.now) out.old out.new result }
{
    for number in numbers {
        out.push(b' ')?;
        add_number(out, *number)?;
    }
    Ok(())
}

/// Adds a moment as generalized time.
pub fn add_moment(out: &mut Vec<u8>, moment: &Moment) -> Result<(), AllocError>
    ensures { AddsMoment moment.now out.old out.new result }
{
    add_generalized(out, moment)
}

/// Adds the word of a hash algorithm.
pub fn add_hash(out: &mut Vec<u8>, alg: HashAlg) -> Result<(), AllocError>
    ensures { Adds (word_of alg) 6 out.old out.new result }
{
    add_words(out, alg.word())
}

/// Adds bytes in lower-case hexadecimal.
pub fn add_hex(out: &mut Vec<u8>, bytes: &[u8]) -> Result<(), AllocError>
    ensures { OnOk result (out.new.items ≡ out.old.items ++ encode_lower bytes.now) }
{
    let digits = hex::encode(*out.allocator(), bytes)?;
    add_words(out, digits.as_bytes())
}

/// Adds a word, the number of the bytes, and the bytes, each with its line feed.
pub fn add_counted(out: &mut Vec<u8>, word: &[u8], bytes: &[u8]) -> Result<(), AllocError>
    ensures { Adds (counted_text word.now bytes.now) (length word.now + length bytes.now + 23)
        out.old out.new result }
{
    add_words(out, word)?;
    add_numbers(out, &[bytes.len() as u64])?;
    end_line(out)?;
    add_words(out, bytes)?;
    end_line(out)
}

/// Ends the line.
pub fn end_line(out: &mut Vec<u8>) -> Result<(), AllocError>
    ensures { Adds (10 ∷ []) 1 out.old out.new result }
{
    out.push(b'\n')?;
    Ok(())
}
