ghost use Rattle.std.specs.Prelude.{◌≡◌, ◌<◌, ◌≤◌, ◌^◌, ℕ, List, length, Some, IfOk, IfErr, IfSome, IsOkAnd, [], ◌∷◌};
ghost use Rattle.der_values.specs.Value.{value};
ghost use Rattle.std.specs.Option.{option_map};
ghost use Rattle.der_values.specs.Steps.{Gives};
ghost use Rattle.der_values.specs.Next.{contents, seen, IsValue};
ghost use Rattle.der_values.specs.Reading.{Finds};
ghost use Rattle.der_values.specs.Grammar.{from_start};
ghost use Rattle.tst_info.specs.Response.{granted_of, token_next_of, token_of, ReadsResponse, response_first_fault, response_contents, response_text, IsToken, answer_to, Answers};
ghost use Rattle.tst_info.specs.Inside.{response_contents_at, response_at};

use crate::fault::RespFault;
use der_values::{DerFault, DerKind, Reader, Tlv, read_integer, tlv_bytes, write_if_there};
use std::alloc::{AllocError, Global};

// That the status grants: it is 0 or 1.
#[tactic(auto, unfolding(crate::specs::Response::granted_of))]
fn check_granted(t: &Tlv<'_>) -> Result<(), RespFault>
    requires { IsValue t.now }
    ensures { Gives (λ u. u) result (granted_of (seen t.now)) }
{
    match read_integer(t)? {
        [0 | 1] => Ok(()),
        [status @ 2..0x80] => Err(RespFault::NotGranted(*status)),
        _ => Err(RespFault::Der(DerFault::at(t.place, DerKind::BadValue))),
    }
}

// That a token follows: nothing else may.
#[tactic(auto, unfolding(crate::specs::Response::token_next_of, der_values::specs::Next::finish_of))]
fn check_token_next(reader: &Reader<'_>) -> Result<(), RespFault>
    ensures { Gives (λ u. u) result (token_next_of reader.now) }
{
    match reader.next_tag() {
        Some(0x30) => Ok(()),
        Some(_) => Ok(reader.finish()?),
        None => Err(RespFault::NoToken),
    }
}

#[tactic(auto, unfolding(der_values::specs::Reading::read))]
fn token_in<'a>(t: &Tlv<'a>) -> Result<&'a [u8], RespFault>
    requires { IsValue t.now }
    ensures { Finds (λ p σ. token_of p) (λ b. b.now) result (response_contents_at (contents (seen t.now))) }
{
    let mut reader = t.contents();
    check_granted(&reader.expect(0x30)?.contents().expect(0x02)?)?;
    check_token_next(&reader)?;
    let token = reader.expect(0x30)?;
    reader.finish()?;
    Ok(token.whole)
}

#[tactic(auto, unfolding(der_values::specs::Reading::read))]
fn whole_response(bytes: &[u8]) -> Result<&[u8], RespFault>
    ensures { Finds (λ p σ. token_of p.0) (λ b. b.now) result (response_at (from_start bytes.now)) }
{
    let mut reader = Reader::new(bytes, 0);
    let token = token_in(&reader.expect(0x30)?)?;
    reader.finish()?;
    Ok(token)
}

/// The token that a response grants, all its bytes, or the first reason why there is none. What stands behind the
/// status is not looked at.
pub fn read_response(bytes: &[u8]) -> Result<&[u8], RespFault>
    // What is answered is what the bytes say, and what they say is answered.
    ensures found { IfOk result (λ token. ReadsResponse bytes.now token.now) }
    ensures only { (token : List ℕ) → ReadsResponse bytes.now token → IsOkAnd result (λ b. b.now ≡ token) }

    // Else the first fault is.
    ensures fault { IfErr result (λ e. response_first_fault bytes.now ≡ Some e) }
{
    whole_response(bytes)
}

// The PKIStatusInfo that says no more than the status.
fn status_bytes(alloc: Global, status: u8) -> Result<Vec<u8>, AllocError>
    ensures { IfOk result (λ bytes. bytes.items ≡ value 0x30 (value 0x02 (status ∷ []))) }
{
    let number = tlv_bytes(alloc, 0x02, &[status])?;
    tlv_bytes(alloc, 0x30, number.as_slice())
}

/// The one spelling of a response with this status, with nothing behind it but the token.
pub fn write_response(
    alloc: Global,
    status: u8,
    token: Option<&[u8]>,
) -> Result<Vec<u8>, AllocError>
    requires status { status ≤ 127 }
    requires token { IfSome token (λ b. IsToken b.now) }
    requires short { length (response_contents status (option_map (λ b. b.now) token)) < 2 ^ 32 }
    ensures spelled { IfOk result (λ bytes. bytes.items ≡ response_text status (option_map (λ b. b.now) token.entry)) }

    // It is read as its token where the status is 0 or 1 and there is one.
    ensures read { IfOk result (λ bytes. Answers bytes.items (answer_to status (option_map (λ b. b.now) token.entry))) }
{
    let mut contents = status_bytes(alloc, status)?;
    write_if_there(&mut contents, token)?;
    tlv_bytes(alloc, 0x30, contents.as_slice())
}
