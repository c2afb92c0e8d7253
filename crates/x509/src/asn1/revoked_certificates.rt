//! Written by asn1_compile from the module X509: change the module instead.
//!
//! RevokedCertificates.

use crate::asn1::revoked_certificate::RevokedCertificate;
use der_asn1::SequenceOf;

/// The entries of a revocation list (RFC 5280, 5.1.2.6), borrowed from the input.
pub type RevokedCertificates<'a> = SequenceOf<'a, RevokedCertificate<'a>>;
