//! What a certificate needs to issue others (RFC 5280, 6.1.4 (k), (n)).
ghost use Rattle.std.specs.Prelude.{◌↔◌, IsTrue};
ghost use Rattle.x509_path.specs.Authority.{IsAuthority, MaySign};

use std::alloc::Global;
use x509::TbsCertificate;
use x509_lint::ExtensionTest;
use x509_lint::checks::found::is_present;

// Whether there is a basicConstraints whose cA is true.
pub(crate) fn is_authority(alloc: Global, signed: &TbsCertificate<'_>) -> bool
    ensures { IsTrue result ↔ IsAuthority signed.now }
{
    is_present(alloc, signed, ExtensionTest::Authority)
}

// Whether there is no keyUsage, or one with the bit keyCertSign.
pub(crate) fn may_sign(alloc: Global, signed: &TbsCertificate<'_>) -> bool
    ensures { IsTrue result ↔ MaySign signed.now }
{
    !is_present(alloc, signed, ExtensionTest::KeyUsage)
        || is_present(alloc, signed, ExtensionTest::CertSign)
}
