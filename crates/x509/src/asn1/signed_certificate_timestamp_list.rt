//! Written by asn1_compile from the module X509: change the module instead.
//!
//! SignedCertificateTimestampList.

use der_asn1::OctetStringRef;

/// The signed certificate timestamps of a certificate (RFC 6962, 3.3): octets in a format that is
/// not ASN.1, which are not checked.
pub type SignedCertificateTimestampList<'a> = OctetStringRef<'a>;
