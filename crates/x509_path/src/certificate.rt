//! A certificate of a path, with its octets.
ghost use Rattle.std.specs.Prelude.{◌≡◌, ◌<◌, ◌^◌, length, IfOk};
ghost use Rattle.x509_path.specs.Encodings.{certificate_octets, signed_octets};

use der::Error;
use der_asn1::lawful_from_der;
use std::alloc::Global;
use x509::Certificate;

/// A certificate, with the octets that encode it. Only [`PathCertificate::from_der`] makes one, so
/// the octets are always those of the certificate.
#[derive(Clone, Copy, Drop)]
pub struct PathCertificate<'a> {
    pub(crate) certificate: Certificate<'a>,
    pub(crate) octets: &'a [u8],
    ghost whole: { octets.now ≡ certificate_octets certificate },
    ghost short: { length octets.now < 2 ^ 32 },
}

impl<'a> PathCertificate<'a> {
    /// Reads a certificate that takes up all of `octets`, under DER. The function does not allocate.
    ///
    /// # Errors
    ///
    /// The errors of decoding a [`Certificate`].
    pub fn from_der(alloc: Global, octets: &'a [u8]) -> Result<Self, Error>
        ensures { IfOk result (λ v. v.octets ≡ octets.entry) }
    {
        let certificate = lawful_from_der::<Certificate<'a>>(alloc, octets)?;
        Ok(PathCertificate {
            certificate,
            octets,
        })
    }

    /// The certificate.
    pub fn certificate(&self) -> &Certificate<'a>
        ensures { result.now ≡ self.now.certificate }
    {
        &self.certificate
    }

    /// The octets that encode the certificate.
    pub fn octets(&self) -> &'a [u8]
        ensures { result ≡ self.now.octets }
    {
        self.octets
    }

    /// The octets that the signature covers: the TBSCertificate, with its header (RFC 5280, 4.1.1.3).
    pub fn signed_octets(&self) -> &'a [u8]
        ensures { result.now ≡ signed_octets self.now.certificate }
    {
        self.certificate.signed_octets(self.octets)
    }
}
