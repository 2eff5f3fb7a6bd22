ghost use Rattle.std.specs.Prelude.{◌≡◌};

use der_values::DerFault;

/// The signed attributes that a time-stamp token has to have, each once.
#[derive(Clone, Copy, Debug, PartialEq, Eq)]
pub enum AttrKind {
    /// content-type (RFC 5652, 11.1).
    ContentType,
    /// message-digest (RFC 5652, 11.2).
    MessageDigest,
    /// signing-certificate, version 2 (RFC 5035, 3).
    SigningCertificate,
}

/// What is first wrong with the bytes of a token, from the left.
#[derive(Clone, Copy, Debug, PartialEq, Eq)]
pub enum CmsFault {
    /// The bytes are not the DER that has to stand there.
    Der(DerFault),
    /// The content is not id-signedData.
    NotSignedData,
    /// The version of the SignedData is not 3.
    Version,
    /// The content that is signed, or the content-type attribute, is not id-ct-TSTInfo.
    ContentType,
    /// So many signers, and not one.
    Signers(u32),
    /// The signer's version is not 1 with an issuer and serial number, nor 3 with a key identifier.
    SignerVersion,
    /// The signer's digest is not SHA-256 with absent or NULL parameters.
    DigestAlg,
    /// The signed attribute is below the one before, in the order of a SET OF.
    AttrOrder,
    /// The signed attribute is the second one of its kind.
    DoubleAttr(AttrKind),
    /// The first kind of which no signed attribute has come.
    MissingAttr(AttrKind),
    /// The signature is not HSS/LMS with absent parameters.
    SignatureAlg,
}

impl From<DerFault> for CmsFault {
    ghost use Rattle.cms_signed.specs.declared.fault.CmsFault.TheVariants.{Der};

    ghost from_gives = { λ e f. f ≡ Der e };

    fn from(e: DerFault) -> CmsFault {
        CmsFault::Der(e)
    }
}
