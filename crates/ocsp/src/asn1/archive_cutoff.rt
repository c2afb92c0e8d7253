//! Written by asn1_compile from the module OCSP: change the module instead.
//!
//! ArchiveCutoff.

use der_asn1::GeneralizedTime;

/// The time since when a responder keeps the status of certificates, also of those that have
/// expired (RFC 6960, 4.4.4).
pub type ArchiveCutoff = GeneralizedTime;
