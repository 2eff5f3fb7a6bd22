ghost use Rattle.std.specs.Prelude.{◌≡◌, ◌≢◌, ◌↔◌, length, MatchOption, IsTrue, IsSome, IfSome, IfOk, IfErr, None, Some, if◌then◌else◌};
ghost use Rattle.std.specs.List.{list_all};
ghost use Rattle.civil_moment.specs.Moment.{Text};
ghost use Rattle.algorithm_policy.specs.Words.{is_name, is_name_byte, is_hex, is_lower_digit, bytes_of, is_sid, is_key, is_cert, is_time};
ghost use Rattle.algorithm_policy.specs.Inside.{Blames};
ghost use Rattle.algorithm_policy.specs.declared.fault.PolicyKind.TheVariants.{Sid};
ghost use Rattle.algorithm_policy.specs.declared.fault.LineFault.TheVariants.{Memory};

use crate::fault::{LineFault, PolicyKind};
use civil_moment::{Moment, read_generalized};
use der_values::{Bytes, Reader};
use hash_kit::{HashValue, HssPublic};
use hex::{FromHex, FromHexError};
use std::alloc::Global;

/// The longest name, in bytes.
const LONGEST_NAME: usize = 32;

/// The longest identifier of a signer, in bytes.
const LONGEST_SID: usize = 1_024;

/// Whether a name is 1 to 32 of a to z, 0 to 9 and the hyphen.
pub(crate) fn is_name(word: &[u8]) -> bool
    ensures { result ≡ is_name word.now }
{
    0 < word.len() && word.len() <= LONGEST_NAME && are_name_bytes(word)
}

fn are_name_bytes(word: &[u8]) -> bool
    ensures { result ≡ list_all is_name_byte word.now }
{
    word.iter().all(|byte| is_name_byte(*byte))
}

fn is_name_byte(byte: u8) -> bool
    ensures { result ≡ is_name_byte byte }
{
    byte.is_ascii_lowercase() || byte.is_ascii_digit() || byte == b'-'
}

/// Whether all are lower-case hexadecimal digits, and their number is even.
pub(crate) fn is_hex(word: &[u8]) -> bool
    ensures { result ≡ is_hex word.now }
{
    word.len() % 2 == 0 && are_lower_digits(word)
}

fn are_lower_digits(word: &[u8]) -> bool
    ensures { result ≡ list_all is_lower_digit word.now }
{
    word.iter().all(|byte| is_lower_digit(*byte))
}

fn is_lower_digit(byte: u8) -> bool
    ensures { result ≡ is_lower_digit byte }
{
    byte.is_ascii_digit() || (b'a' <= byte && byte <= b'f')
}

/// The identifier, which is one DER value of tag 30 or 80.
pub(crate) fn sid_of(alloc: Global, word: &[u8]) -> Result<Bytes, LineFault>
    requires { IsTrue (is_hex word.now) }
    ensures value { IfOk result (λ sid. sid ≡ bytes_of word.now) }
    ensures ok { IfOk result (λ sid. IsTrue (is_sid (bytes_of word.now))) }
    ensures fault { IfErr result (λ f. Blames f (if is_sid (bytes_of word.now) then None else Some Sid)) }
{
    if word.len() > 2 * LONGEST_SID {
        return Err(LineFault::Is(PolicyKind::Sid));
    }
    let bytes = bytes_of(alloc, word)?;
    if !is_sid(bytes.as_slice()) {
        return Err(LineFault::Is(PolicyKind::Sid));
    }
    Ok(Bytes::from_vec(bytes))
}

// The bytes that the digits say.
fn bytes_of(alloc: Global, word: &[u8]) -> Result<Vec<u8>, LineFault>
    requires { IsTrue (is_hex word.now) }
    ensures value { IfOk result (λ bytes. bytes.items ≡ bytes_of word.now) }
    ensures memory { IfErr result (λ f. f ≡ Memory) }
{
    match hex::decode(alloc, word) {
        Ok(bytes) => Ok(bytes),
        Err(fault) => match fault {
            FromHexError::OutOfMemory => Err(LineFault::Memory),
            _ => unreachable!(),
        },
    }
}

// Whether the bytes are one DER value of tag 30 or 80, of at most 1,024 bytes.
#[tactic(auto, unfolding(crate::specs::Words::is_sid))]
fn is_sid(bytes: &[u8]) -> bool
    ensures { result ≡ is_sid bytes.now }
{
    if bytes.len() > LONGEST_SID {
        return false;
    }
    let mut reader = Reader::new(bytes, 0);
    let Ok(value) = reader.next() else {
        return false;
    };
    (value.tag == 0x30 || value.tag == 0x80) && reader.at_end()
}

// The bytes, where they are so many.
fn array_of<const N: usize>(word: &[u8]) -> Option<[u8; N]>
    requires { IsTrue (is_hex word.now) }
    ensures { MatchOption result (length (bytes_of word.now) ≢ N) (λ bytes. bytes ≡ bytes_of word.now) }
{
    <[u8; N]>::from_hex(word).ok()
}

/// The key, if it is an HSS public key.
pub(crate) fn key_of(word: &[u8]) -> Option<HssPublic>
    requires { IsTrue (is_hex word.now) }
    ensures value { IfSome result (λ key. key ≡ bytes_of word.now) }
    ensures found { IsSome result ↔ IsTrue (is_key (bytes_of word.now)) }
{
    let bytes = array_of::<60>(word)?;
    HssPublic::read(&bytes).ok()
}

/// The certificate's hash, if it has 32 bytes.
pub(crate) fn cert_of(word: &[u8]) -> Option<HashValue>
    requires { IsTrue (is_hex word.now) }
    ensures value { IfSome result (λ cert. cert ≡ bytes_of word.now) }
    ensures found { IsSome result ↔ IsTrue (is_cert (bytes_of word.now)) }
{
    let bytes = array_of::<32>(word)?;
    Some(HashValue::of(&bytes))
}

/// The moment, if the word is a generalized time.
pub(crate) fn time_of(word: &[u8]) -> Option<Moment>
    ensures value { IfSome result (λ time. Text word.now time) }
    ensures found { IsSome result ↔ IsTrue (is_time word.now) }
{
    read_generalized(word).ok()
}
