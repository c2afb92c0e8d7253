//! Written by asn1_compile from the module X509: change the module instead.
//!
//! CertificateSerialNumber.

use der_asn1::IntRef;

/// The serial number of a certificate (RFC 5280, 4.1.2.2): an INTEGER of any size and sign. That it
/// is positive and has at most 20 octets is not checked.
pub type CertificateSerialNumber<'a> = IntRef<'a>;
