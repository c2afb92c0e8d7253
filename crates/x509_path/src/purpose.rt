//! The purposes of keys (RFC 5280, 4.2.1.12).
ghost use Rattle.std.specs.Prelude.{◌≡◌, ◌↔◌, IsTrue};
ghost use Rattle.x509_path.specs.Purpose.{AllowsPurpose, HasPurpose, IsPurpose, purpose_octets};

use der_asn1::ObjectIdentifierRef;
use std::alloc::Global;
use x509::values::{
    any_extended_key_usage, id_kp_client_auth, id_kp_code_signing, id_kp_email_protection,
    id_kp_ocsp_signing, id_kp_server_auth, id_kp_time_stamping,
};
use x509::{ExtKeyUsageSyntax, TbsCertificate, ext};

/// The purposes of keys that RFC 5280 names (4.2.1.12).
#[derive(Clone, Copy, Debug, Drop, PartialEq, Eq)]
pub enum Purpose {
    /// id-kp-serverAuth: servers of TLS.
    ServerAuth,
    /// id-kp-clientAuth: clients of TLS.
    ClientAuth,
    /// id-kp-codeSigning: programs.
    CodeSigning,
    /// id-kp-emailProtection: e-mail.
    EmailProtection,
    /// id-kp-timeStamping: timestamps.
    TimeStamping,
    /// id-kp-OCSPSigning: responses of OCSP.
    OcspSigning,
}

impl Purpose {
    /// The identifier of the purpose.
    pub fn identifier(self) -> ObjectIdentifierRef<'static>
        ensures { result.octets.now ≡ purpose_octets self }
    {
        match self {
            Purpose::ServerAuth => id_kp_server_auth(),
            Purpose::ClientAuth => id_kp_client_auth(),
            Purpose::CodeSigning => id_kp_code_signing(),
            Purpose::EmailProtection => id_kp_email_protection(),
            Purpose::TimeStamping => id_kp_time_stamping(),
            Purpose::OcspSigning => id_kp_ocsp_signing(),
        }
    }
}

/// Whether the key of a certificate may be used for a purpose (RFC 5280, 4.2.1.12): the certificate
/// has no extKeyUsage, or exactly one, which is well-formed under DER and has the purpose. If
/// `any_counts`, an extKeyUsage with anyExtendedKeyUsage allows every purpose. Pass false if nothing
/// else is prescribed: the rules for servers of TLS forbid anyExtendedKeyUsage. The function does not
/// use `alloc`.
pub fn purpose_allows(
    alloc: Global,
    certificate: &TbsCertificate<'_>,
    purpose: &ObjectIdentifierRef<'_>,
    any_counts: bool,
) -> bool
    ensures { IsTrue result ↔ AllowsPurpose purpose.now.octets.now any_counts certificate.now }
{
    match certificate.find_extension::<ext::ExtKeyUsage>(alloc) {
        Ok(Some(known)) => has_purpose(alloc, &known.value, purpose.octets(), any_counts),
        Ok(None) => true,
        Err(_) => false,
    }
}

// Whether a list has the purpose, or anyExtendedKeyUsage if that counts.
fn has_purpose(
    alloc: Global,
    purposes: &ExtKeyUsageSyntax<'_>,
    purpose: &[u8],
    any_counts: bool,
) -> bool
    ensures { HasPurpose purpose.now any_counts purposes.now.octets.now result }
{
    let mut found = false;
    'purposes: for item in purposes.iter(alloc) {
        found = found | is_purpose(item.octets(), purpose, any_counts);
    }
    found
}

fn is_purpose(item: &[u8], purpose: &[u8], any_counts: bool) -> bool
    ensures { IsTrue result ↔ IsPurpose purpose.now any_counts item.now }
{
    item == purpose || any_counts && item == any_extended_key_usage().octets()
}
