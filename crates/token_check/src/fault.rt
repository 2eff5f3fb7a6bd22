use cms_signed::CmsFault;
use std::alloc::AllocError;
use tst_info::{RespFault, TstFault};

/// Why a token is not sound. The conditions are tried in this order.
#[derive(Clone, Copy, Debug, PartialEq, Eq)]
pub enum Check {
    /// The token has more than 65,536 bytes.
    TooLong,
    /// It is no signed time-stamp. Places count from its first byte.
    Cms(CmsFault),
    /// Its content is no TSTInfo. Places count from the first octet of the content.
    Tst(TstFault),
    /// The hash of the imprint is not known.
    HashUnknown,
    /// The policy has no authority of this signer identifier, in all of its bytes.
    UnknownSigner,
    /// The signing-certificate attribute does not name the authority's certificate by its SHA-256.
    CertHash,
    /// The message-digest attribute is not the SHA-256 of the content.
    MessageDigest,
    /// The signature of the signed attributes does not verify under the authority's key.
    BadSignature,
}

/// Why a token was not accepted.
#[derive(Clone, Copy, Debug, PartialEq, Eq)]
pub enum TokenFault {
    /// It is not sound.
    Check(Check),
    /// Memory ran out. Nothing is said of the token.
    Memory,
}

impl From<Check> for TokenFault {
    ghost use Rattle.std.specs.Prelude.{◌≡◌};
    ghost use Rattle.token_check.specs.declared.fault.TokenFault.TheVariants as faults;

    ghost from_gives = { λ c f. f ≡ faults.Check c };

    fn from(check: Check) -> TokenFault {
        TokenFault::Check(check)
    }
}

impl From<AllocError> for TokenFault {
    ghost use Rattle.std.specs.Prelude.{◌≡◌};
    ghost use Rattle.token_check.specs.declared.fault.TokenFault.TheVariants.{Memory};

    ghost from_gives = { λ _ f. f ≡ Memory };

    fn from(_e: AllocError) -> TokenFault {
        TokenFault::Memory
    }
}

/// Why the reply of an authority is not taken.
#[derive(Clone, Copy, Debug, PartialEq, Eq)]
pub enum ReplyFault {
    /// It is no response with a token.
    Response(RespFault),
    /// Its token is not sound.
    Token(Check),
    /// The token is not over the hash and the value that were asked for.
    Imprint,
    /// The token has not the nonce of the request.
    Nonce,
}
