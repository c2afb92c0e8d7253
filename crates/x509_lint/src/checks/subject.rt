//! Checks of the names of a certificate (RFC 5280, 4.1.2.4, 4.1.2.6 and 4.2.1.1).
ghost use Rattle.std.specs.Prelude.{◌↔◌, IsTrue};
ghost use Rattle.x509_lint.specs.CertificateChecks.{HasAuthoritySubject, HasKeyIdentifier, HasSubject, IsSelfIssued};

use crate::checks::found::is_present;
use crate::checks::presence::has_item;
use crate::extension_test::ExtensionTest;
use std::alloc::Global;
use x509::TbsCertificate;

/// Whether the subject has a name: the field `subject` is not empty, or there is a critical
/// subjectAltName (RFC 5280, 4.1.2.6, 4.2.1.6). Decoding does not check this. The function does not
/// use `alloc`.
pub fn has_subject(alloc: Global, signed: &TbsCertificate<'_>) -> bool
    ensures { IsTrue result ↔ HasSubject signed.now }
{
    has_item(&signed.subject.levels) || is_present(alloc, signed, ExtensionTest::CriticalAltName)
}

/// False if the field `subject` is empty and the certificate has a basicConstraints whose cA is
/// true (RFC 5280, 4.1.2.6). Otherwise true. The function does not use `alloc`.
pub fn has_authority_subject(alloc: Global, signed: &TbsCertificate<'_>) -> bool
    ensures { IsTrue result ↔ HasAuthoritySubject signed.now }
{
    has_item(&signed.subject.levels) || !is_present(alloc, signed, ExtensionTest::Authority)
}

/// Whether the certificate has an authorityKeyIdentifier with a keyIdentifier (RFC 5280, 4.2.1.1).
/// Also true if its issuer and its subject have the same name. The function does not use `alloc`.
pub fn has_key_identifier(alloc: Global, signed: &TbsCertificate<'_>) -> bool
    ensures { IsTrue result ↔ HasKeyIdentifier signed.now }
{
    is_self_issued(signed) || is_present(alloc, signed, ExtensionTest::KeyIdentifier)
}

// Whether the issuer has the name of the subject, octet by octet.
fn is_self_issued(signed: &TbsCertificate<'_>) -> bool
    ensures { IsTrue result ↔ IsSelfIssued signed.now }
{
    signed.issuer.levels.octets() == signed.subject.levels.octets()
}
