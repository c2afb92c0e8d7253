//! An example that reads the subject of a certificate and the usage of its key (RFC 5280, 4.1 and
//! 4.2).
use der::{DecodeBytes, ErrorKind};
use der_asn1::Ia5StringRef;
use std::alloc::Global;
use x509::{Certificate, FindError, KeyUsage, Name, Validity, ext};

/// What a certificate says about its subject. The fields `subject`, `dns_names` and `key_usage`
/// borrow from the encoding of the certificate.
#[derive(Drop)]
pub struct Summary<'a> {
    /// The name of the subject.
    pub subject: Name<'a>,
    /// The host names in the extension SubjectAltName, such as `example.org`: the names of type
    /// dNSName. Empty if there are none, or if the certificate does not have this extension.
    pub dns_names: Vec<Ia5StringRef<'a>>,
    /// The extension KeyUsage, which says what the key of the subject may be used for. `None` if
    /// the certificate does not have this extension.
    pub key_usage: Option<KeyUsage<'a>>,
    /// The period in which the certificate is valid.
    pub validity: Validity,
}

/// Reads `octets` as exactly one certificate under DER, and returns what it says about its subject.
/// The signature is not verified, and it is not checked whether the certificate is valid now.
pub fn summary_of<'a>(alloc: Global, octets: &'a [u8]) -> Result<Summary<'a>, FindError> {
    let certificate = Certificate::from_der(alloc, octets).map_err(FindError::Contents)?;
    let fields = certificate.tbs_certificate;
    let mut dns_names = Vec::new(alloc);
    if let Some(found) = fields.find_extension::<ext::SubjectAltName>(alloc)? {
        for name in found.value.iter(alloc) {
            if let Some(host) = name.dns_name() {
                let pushed = dns_names.push(host);
                pushed.map_err(|_| FindError::Contents(ErrorKind::OutOfMemory.to_error()))?;
            }
        }
    }
    let key_usage = fields.find_extension::<ext::KeyUsage>(alloc)?;
    Ok(Summary {
        subject: fields.subject,
        dns_names,
        key_usage: key_usage.map(|found| found.value),
        validity: fields.validity,
    })
}
