//! The version of a certificate, and fields that versions allow (RFC 5280, 4.1).
ghost use Rattle.std.specs.Prelude.{◌≡◌, ◌↔◌, ◌∷◌, [], IsTrue};
ghost use Rattle.x509_path.specs.Fields.{HasExtensions, HasUniqueIdentifiers, version_by, version_of};

use path_rules::Version;
use x509::TbsCertificate;

// The version: 1 if the field is absent.
pub(crate) fn version_of(signed: &TbsCertificate<'_>) -> Version
    ensures { result ≡ version_of signed.now }
{
    version_by(signed.version.0.0.octets())
}

// The version with this number: 0 for version 1, 1 for version 2, and 2 for version 3.
fn version_by(octets: &[u8]) -> Version
    ensures { result ≡ version_by octets.now }
{
    match octets {
        [octet, ..] => version_at(*octet),
        [] => Version::V1,
    }
}

fn version_at(octet: u8) -> Version
    ensures { result ≡ version_by (octet ∷ []) }
{
    if octet == 0 {
        Version::V1
    } else if octet == 1 {
        Version::V2
    } else {
        Version::V3
    }
}

// Whether there is an issuerUniqueID or a subjectUniqueID.
pub(crate) fn has_unique_identifiers(signed: &TbsCertificate<'_>) -> bool
    ensures { IsTrue result ↔ HasUniqueIdentifiers signed.now }
{
    signed.issuer_unique_id.0.is_some() || signed.subject_unique_id.0.is_some()
}

// Whether there are extensions.
pub(crate) fn has_extensions(signed: &TbsCertificate<'_>) -> bool
    ensures { IsTrue result ↔ HasExtensions signed.now }
{
    signed.extensions.0.is_some()
}
