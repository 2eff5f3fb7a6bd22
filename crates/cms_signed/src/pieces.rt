//! Tokens that are put together of pieces.

use der_values::write_tlv;
use std::alloc::{AllocError, Global};

/// The attribute content-type.
pub(crate) const CONTENT_TYPE: &[u8] = b"\
    \x30\x1a\x06\x09\x2a\x86\x48\x86\xf7\x0d\x01\x09\x03\x31\x0d\x06\x0b\x2a\x86\x48\x86\xf7\x0d\x01\
    \x09\x10\x01\x04";

/// The attribute message-digest of `abc`.
pub(crate) const MESSAGE_DIGEST: &[u8] = b"\
    \x30\x2f\x06\x09\x2a\x86\x48\x86\xf7\x0d\x01\x09\x04\x31\x22\x04\x20\xba\x78\x16\xbf\x8f\x01\xcf\
    \xea\x41\x41\x40\xde\x5d\xae\x22\x23\xb0\x03\x61\xa3\x96\x17\x7a\x9c\xb4\x10\xff\x61\xf2\x00\x15\
    \xad";

/// The SHA-256 of `abc`, as NIST publishes it.
pub(crate) const DIGEST_OF_ABC: &[u8] = b"\
    \xba\x78\x16\xbf\x8f\x01\xcf\xea\x41\x41\x40\xde\x5d\xae\x22\x23\xb0\x03\x61\xa3\x96\x17\x7a\x9c\
    \xb4\x10\xff\x61\xf2\x00\x15\xad";

/// The attribute signing-certificate.
pub(crate) const CERTIFICATE: &[u8] = b"\
    \x30\x37\x06\x0b\x2a\x86\x48\x86\xf7\x0d\x01\x09\x10\x02\x2f\x31\x28\x30\x26\x30\x24\x30\x22\x04\
    \x20\x40\x41\x42\x43\x44\x45\x46\x47\x48\x49\x4a\x4b\x4c\x4d\x4e\x4f\x50\x51\x52\x53\x54\x55\x56\
    \x57\x58\x59\x5a\x5b\x5c\x5d\x5e\x5f";

/// The certificate's hash, 40 41 42 ..
pub(crate) const CERTIFICATE_HASH: &[u8] = b"\
    \x40\x41\x42\x43\x44\x45\x46\x47\x48\x49\x4a\x4b\x4c\x4d\x4e\x4f\x50\x51\x52\x53\x54\x55\x56\x57\
    \x58\x59\x5a\x5b\x5c\x5d\x5e\x5f";

const SHA256: &[u8] = b"\
    \x30\x0b\x06\x09\x60\x86\x48\x01\x65\x03\x04\x02\x01";

const ALGORITHMS: &[u8] = b"\
    \x31\x0d\x30\x0b\x06\x09\x60\x86\x48\x01\x65\x03\x04\x02\x01";

const HSS_LMS: &[u8] = b"\
    \x30\x0d\x06\x0b\x2a\x86\x48\x86\xf7\x0d\x01\x09\x10\x03\x11";

const TYPE: &[u8] = b"\
    \x06\x09\x2a\x86\x48\x86\xf7\x0d\x01\x07\x02";

const CONTENT: &[u8] = b"\
    \x30\x14\x06\x0b\x2a\x86\x48\x86\xf7\x0d\x01\x09\x10\x01\x04\xa0\x05\x04\x03\x61\x62\x63";

const SID: &[u8] = b"\
    \x80\x14\x00\x01\x02\x03\x04\x05\x06\x07\x08\x09\x0a\x0b\x0c\x0d\x0e\x0f\x10\x11\x12\x13";

/// A piece of a token.
#[derive(Clone, Copy, PartialEq)]
pub(crate) enum Piece {
    Type,
    Version,
    Algorithms,
    Content,
    /// What stands between the content and the signers.
    Certificates,
    SignerVersion,
    Sid,
    Digest,
    /// What stands before the attributes, between them and behind them.
    First,
    ContentType,
    Second,
    MessageDigest,
    Third,
    Certificate,
    Last,
    Algorithm,
    Signature,
    Unsigned,
    /// What stands behind the signer, the signers, the SignedData, its tag [0], and the token.
    MoreSigners,
    MoreData,
    MoreExplicit,
    MoreInfo,
    More,
}

/// Two pieces that are other than usual.
#[derive(Clone, Copy)]
pub(crate) struct Edit {
    pub first: (Piece, &'static [u8]),
    pub second: (Piece, &'static [u8]),
}

/// No piece is other than usual.
pub(crate) const USUAL: Edit = Edit {
    first: (Piece::More, &[]),
    second: (Piece::More, &[]),
};

impl Edit {
    fn piece(&self, piece: Piece, usual: &'static [u8]) -> &'static [u8] {
        if piece == self.first.0 {
            self.first.1
        } else if piece == self.second.0 {
            self.second.1
        } else {
            usual
        }
    }
}

// A value of a token: the pieces before it and behind it, with their usual bytes, and its tag.
struct Layer {
    before: &'static [(Piece, &'static [u8])],
    tag: u8,
    behind: &'static [(Piece, &'static [u8])],
}

const ATTRIBUTES: &[(Piece, &[u8])] = &[
    (Piece::First, b""),
    (Piece::ContentType, CONTENT_TYPE),
    (Piece::Second, b""),
    (Piece::MessageDigest, MESSAGE_DIGEST),
    (Piece::Third, b""),
    (Piece::Certificate, CERTIFICATE),
    (Piece::Last, b""),
];

// From the attributes of the signer outwards.
const LAYERS: &[Layer] = &[
    Layer {
        before: &[
            (Piece::SignerVersion, b"\x02\x01\x03"),
            (Piece::Sid, SID),
            (Piece::Digest, SHA256),
        ],
        tag: 0xa0,
        behind: &[
            (Piece::Algorithm, HSS_LMS),
            (Piece::Signature, b"\x04\x05\x01\x02\x03\x04\x05"),
            (Piece::Unsigned, b""),
        ],
    },
    Layer {
        before: &[],
        tag: 0x30,
        behind: &[(Piece::MoreSigners, b"")],
    },
    Layer {
        before: &[
            (Piece::Version, b"\x02\x01\x03"),
            (Piece::Algorithms, ALGORITHMS),
            (Piece::Content, CONTENT),
            (Piece::Certificates, b""),
        ],
        tag: 0x31,
        behind: &[(Piece::MoreData, b"")],
    },
    Layer {
        before: &[],
        tag: 0x30,
        behind: &[(Piece::MoreExplicit, b"")],
    },
    Layer {
        before: &[(Piece::Type, TYPE)],
        tag: 0xa0,
        behind: &[(Piece::MoreInfo, b"")],
    },
    Layer {
        before: &[],
        tag: 0x30,
        behind: &[(Piece::More, b"")],
    },
];

fn write_pieces(
    out: &mut Vec<u8>,
    edit: &Edit,
    pieces: &[(Piece, &'static [u8])],
) -> Result<(), AllocError> {
    for &(piece, usual) in pieces {
        out.extend_from_slice(edit.piece(piece, usual))?;
    }
    Ok(())
}

// The test fails where a value is left out, since its token is another.
fn write(out: &mut Vec<u8>, tag: u8, content: &[u8]) -> Result<(), AllocError> {
    if tag % 32 != 31 && content.len() < 65_536 {
        write_tlv(out, tag, content)?;
    }
    Ok(())
}

fn around(
    alloc: Global,
    edit: &Edit,
    layer: &Layer,
    content: &[u8],
) -> Result<Vec<u8>, AllocError> {
    let mut out = Vec::new(alloc);
    write_pieces(&mut out, edit, layer.before)?;
    write(&mut out, layer.tag, content)?;
    write_pieces(&mut out, edit, layer.behind)?;
    Ok(out)
}

/// The token with these pieces.
pub(crate) fn token_of(alloc: Global, edit: &Edit) -> Result<Vec<u8>, AllocError> {
    let mut token = Vec::new(alloc);
    write_pieces(&mut token, edit, ATTRIBUTES)?;
    for layer in LAYERS {
        token = around(alloc, edit, layer, &token)?;
    }
    Ok(token)
}
