//! Checks that lists of a certificate are not empty, and that unique identifiers are absent.
ghost use Rattle.std.specs.Prelude.{◌≢◌, ◌↔◌, [], IsTrue};
ghost use Rattle.x509_lint.specs.CertificateChecks.{HasExtensionIfPresent, HasIssuer, HasNoUniqueIdentifier};
ghost use Rattle.x509.specs.CertificateLists.{level_octets};

use der_asn1::{Item, SequenceOf};
use x509::{RelativeDistinguishedName, TbsCertificate};

/// Whether a list has an item. RFC 5280, 4.2.1, requires an item of several lists, by the size
/// `1..MAX`. Decoding does not check this.
pub fn has_item<T: Item>(list: &SequenceOf<'_, T>) -> bool
    ensures { IsTrue result ↔ (list.now.octets.now ≢ []) }
{
    !list.octets().is_empty()
}

/// Whether the RelativeDistinguishedName has an attribute, as its size `1..MAX` requires (RFC 5280,
/// 4.1.2.4). Decoding does not check this.
pub fn has_attribute(level: &RelativeDistinguishedName<'_>) -> bool
    ensures { IsTrue result ↔ (level_octets level.now ≢ []) }
{
    !level.attributes.octets().is_empty()
}

/// Whether the name of the issuer is not empty (RFC 5280, 4.1.2.4). Decoding does not check
/// this.
pub fn has_issuer(signed: &TbsCertificate<'_>) -> bool
    ensures { IsTrue result ↔ HasIssuer signed.now }
{
    has_item(&signed.issuer.levels)
}

/// False if the field `extensions` is present and has no extension (RFC 5280, 4.1). Otherwise true.
/// Decoding does not check this.
pub fn has_extension_if_present(signed: &TbsCertificate<'_>) -> bool
    ensures { IsTrue result ↔ HasExtensionIfPresent signed.now }
{
    match &signed.extensions.0 {
        Some(extensions) => has_item(&extensions.0.items),
        None => true,
    }
}

/// Whether the certificate has neither an issuerUniqueID nor a subjectUniqueID (RFC 5280, 4.1.2.8).
/// Decoding does not check this.
pub fn has_no_unique_identifier(signed: &TbsCertificate<'_>) -> bool
    ensures { IsTrue result ↔ HasNoUniqueIdentifier signed.now }
{
    signed.issuer_unique_id.0.is_none() && signed.subject_unique_id.0.is_none()
}
