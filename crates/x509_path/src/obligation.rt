//! Signatures that the caller must verify (RFC 5280, 6.1.3 (a) (1)).
ghost use Rattle.std.specs.Prelude.{◌≡◌};
ghost use Rattle.x509_path.specs.Obligations.{IsObligation, has_unused_bits, issuer_key, signature_by};

use crate::certificate::PathCertificate;
use crate::inputs::Inputs;
use spki::{AlgorithmIdentifierRef, SubjectPublicKeyInfoRef};

/// A signature that has to verify. The key is that of the issuer as its certificate has it: if its
/// algorithm lacks parameters, none are inherited from the certificate before (RFC 5280, 6.1.4 (d)
/// to (f)), so a signature by such a DSA key cannot verify.
#[derive(Clone, Copy, Drop)]
pub struct Obligation<'r, 'a> {
    /// The key, with its algorithm and parameters: of the certificate before, or of the trust anchor.
    pub key: &'r SubjectPublicKeyInfoRef<'a>,
    /// The algorithm of the signature, with its parameters.
    pub algorithm: &'r AlgorithmIdentifierRef<'a>,
    /// The octets that are signed: the TBSCertificate, with its header.
    pub signed: &'r [u8],
    /// The octets of the signature. None, if its BIT STRING has unused bits: no algorithm has such
    /// signatures, so it cannot verify.
    pub signature: &'r [u8],
}

/// The obligation of a certificate after those before it in a path, which are in its order.
pub fn obligation_of<'r, 'a>(
    inputs: &'r Inputs<'a>,
    before: &'r [PathCertificate<'a>],
    certificate: &'r PathCertificate<'a>,
) -> Obligation<'r, 'a>
    ensures { IsObligation inputs.now before.now certificate.now result }
{
    Obligation {
        key: issuer_key(inputs, before),
        algorithm: &certificate.certificate.signature_algorithm,
        signed: certificate.signed_octets(),
        signature: signature_octets(certificate.certificate.signature.octets()),
    }
}

// The key with which the certificate after these is signed.
pub(crate) fn issuer_key<'r, 'a>(
    inputs: &'r Inputs<'a>,
    before: &'r [PathCertificate<'a>],
) -> &'r SubjectPublicKeyInfoRef<'a>
    ensures { result.now ≡ issuer_key inputs.now before.now }
{
    if before.len() == 0 {
        return &inputs.anchor.key;
    }
    &before[before.len() - 1]
        .certificate
        .tbs_certificate
        .subject_public_key_info
}

// The octets of a BIT STRING with these contents; none, if it has unused bits.
fn signature_octets<'s>(contents: &'s [u8]) -> &'s [u8]
    ensures { result.now ≡ signature_by contents.now }
{
    if has_unused_bits(contents) {
        return &contents[..0];
    }
    &contents[1..]
}

// Whether the first octet, the number of unused bits, is not zero.
fn has_unused_bits(contents: &[u8]) -> bool
    ensures { result ≡ has_unused_bits contents.now }
{
    match contents {
        [first, ..] => *first != 0,
        [] => true,
    }
}
