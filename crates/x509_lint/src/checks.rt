//! Checks of a certificate that decoding does not make.
ghost use Rattle.std.specs.Prelude.{◌≡◌, ◌↔◌, Some, IsTrue};
ghost use Rattle.x509_lint.specs.Checks.{MatchesCertificateVersion, HasSameAlgorithms, IsSameAlgorithm};
ghost use Rattle.x509_lint.specs.Checks.{parameters_of, certificate_version_number};

pub mod attribute;
pub mod extension;
pub mod extensions;
pub mod fields;
pub mod found;
pub(crate) mod identifiers;
mod kinds;
pub mod list;
pub mod name;
pub mod policies;
pub mod presence;
pub mod serial_number;
pub mod subject;
pub mod times;
pub mod value;
pub mod value_types;

use crate::elements::is_same_tag;
use der_asn1::AnyRef;
use spki::AlgorithmIdentifierRef;
use x509::{Certificate, TbsCertificate};

// The number of a version: 0, 1 or 2.
pub(crate) fn number_of(octets: &[u8]) -> u8
    ensures { result ≡ certificate_version_number octets.now }
{
    match octets {
        [octet, ..] => *octet,
        [] => 0,
    }
}

/// Whether the version allows the fields that are present. The unique identifiers must be absent in
/// version 1, and the extensions must be absent in versions 1 and 2 (RFC 5280, 4.1.2.1, 4.1.2.8,
/// 4.1.2.9). Decoding does not check this.
pub fn has_fields_of_version(signed: &TbsCertificate<'_>) -> bool
    ensures { IsTrue result ↔ MatchesCertificateVersion signed.now }
{
    let number = number_of(signed.version.0.0.octets());
    if signed.extensions.0.is_some() && number != 2 {
        return false;
    }
    let has_unique_id = signed.issuer_unique_id.0.is_some() || signed.subject_unique_id.0.is_some();
    !has_unique_id || number >= 1
}

/// Whether the field `signature_algorithm` is the same as the field `signature` of the signed part
/// (RFC 5280, 4.1.1.2). The identifiers must be the same. The parameters must be the same, or
/// absent in both fields. Decoding does not check this.
pub fn has_same_algorithms(certificate: &Certificate<'_>) -> bool
    ensures { IsTrue result ↔ HasSameAlgorithms certificate.now }
{
    is_same_algorithm(
        &certificate.signature_algorithm,
        &certificate.tbs_certificate.signature,
    )
}

// Whether two algorithms have the same identifier and the same parameters.
pub(crate) fn is_same_algorithm(
    first: &AlgorithmIdentifierRef<'_>,
    second: &AlgorithmIdentifierRef<'_>,
) -> bool
    ensures { IsTrue result ↔ IsSameAlgorithm first.now second.now }
{
    first.oid.octets() == second.oid.octets()
        && are_same_parameters(&first.parameters.0, &second.parameters.0)
}

// Whether both have no parameters, or both have elements with the same tag and contents.
fn are_same_parameters(first: &Option<AnyRef<'_>>, second: &Option<AnyRef<'_>>) -> bool
    ensures { IsTrue result ↔ (parameters_of first.now ≡ parameters_of second.now) }
{
    match (first, second) {
        (Some(first), Some(second)) => is_same_element(first, second),
        (None, None) => true,
        _ => false,
    }
}

fn is_same_element(first: &AnyRef<'_>, second: &AnyRef<'_>) -> bool
    ensures { IsTrue result
        ↔ (parameters_of (Some first.now) ≡ parameters_of (Some second.now)) }
{
    is_same_tag(first.tag, second.tag) && first.contents == second.contents
}
