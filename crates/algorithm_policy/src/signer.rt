use civil_moment::Moment;
use der_values::Bytes;
use hash_kit::{HashValue, HssPublic};

/// An authority that the policy trusts.
#[derive(Debug, Drop)]
pub struct Signer {
    /// The name, of 1 to 32 of a to z, 0 to 9 and the hyphen.
    pub name: Bytes,
    /// The SignerIdentifier (RFC 5652, section 5.3) in all of its bytes.
    pub sid: Bytes,
    pub key: HssPublic,
    /// The SHA-256 of the certificate.
    pub cert: HashValue,
    /// The first moment at which the key is good no more.
    pub end: Moment,
}
