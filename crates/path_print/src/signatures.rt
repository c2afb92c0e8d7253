//! The signatures of a path.

use der_print::long_name;
use std::fmt::Write;
use x509_build::Pool;
use x509_names::NameText;
use x509_path::PathCertificate;

// Prints a line for each signature of a path.
pub(crate) fn put_signatures<W: Write>(
    out: &mut W,
    pool: &Pool<'_, '_>,
    path: &[PathCertificate<'_>],
) {
    for certificate in path.iter() {
        let signed = &certificate.certificate().tbs_certificate;
        let _ = write!(
            out,
            "    signature of {} by the key of {}: ",
            NameText::new(pool.alloc, &signed.subject),
            NameText::new(pool.alloc, &signed.issuer)
        );
        let identifier = &certificate.certificate().signature_algorithm.oid;
        let _ = match long_name(identifier.octets()) {
            Some(name) => write!(out, "{name}\n"),
            None => write!(out, "{identifier}\n"),
        };
    }
}
