// Policies of the two authorities.
use crate::fault::Unmade;
use algorithm_policy::{Policy, read_policy};
use std::alloc::Global;

// The authorities with their identifiers and keys, by another signer after RFC 8554; a certificate's hash is the SHA-256 of the key.
const EARLY: &str = "early 8014eee5f88b134f44ff043623bc86a39c86915dc3d1 \
    0000000200000005000000033ee0d443b06f1bdc534e6c3ae9f9dc466c651dfad7065f21e48b0ea6599e2c6ec70ccba5dc05649313c370ce753d6e19";

/// The certificate's hash of the early authority.
pub const EARLY_CERTIFICATE: &str =
    "eee5f88b134f44ff043623bc86a39c86915dc3d1db04e363bd67bf83cd014090";

const LATE: &str = "late 8014fd7fb9d0b481289d4ab2f1fef553fed4be3db25d \
    000000020000000500000003b1854fde9d411a21f504b2684aae9fa385cd7f016d660bdca769536f30350e746317c5adafdf39a8875064ba20749cf9";

/// The certificate's hash of the late authority.
pub const LATE_CERTIFICATE: &str =
    "fd7fb9d0b481289d4ab2f1fef553fed4be3db25d2c78a115af780180748ed8a6";

/// Until when the hashes and the keys of the authorities are good, and which certificate the early one has.
#[derive(Clone, Copy)]
pub struct Terms {
    pub sha256: &'static str,
    pub sha512: &'static str,
    pub certificate: &'static str,
    pub early: &'static str,
    pub late: &'static str,
}

/// SHA-256 up to 2035, SHA-512 up to 2060, the early key up to 2030, the late one up to 2050.
pub const USUAL: Terms = Terms {
    sha256: "20350101000000Z",
    sha512: "20600101000000Z",
    certificate: EARLY_CERTIFICATE,
    early: "20300101000000Z",
    late: "20500101000000Z",
};

/// The policy of these terms.
pub fn policy(alloc: Global, terms: &Terms) -> Result<Policy, Unmade> {
    let text = format!(in alloc;
        "evidence policy 1\nhash sha256 {}\nhash sha512 {}\n\
        authority {} {} {}\nauthority {} {} {}\n",
        terms.sha256,
        terms.sha512,
        EARLY,
        terms.certificate,
        terms.early,
        LATE,
        LATE_CERTIFICATE,
        terms.late
    )?;
    match read_policy(alloc, text.as_bytes()) {
        Ok(policy) => Ok(policy),
        Err(_) => Err(Unmade::Policy),
    }
}
