//! Written by asn1_compile from the module CMS: change the module instead.
//!
//! SigningTime.

use x509::Time;

/// When the signer made the signature (RFC 5652, 11.3): the value of an attribute. The RFC requires
/// a UTCTime from 1950 to 2049, but decoding does not check this.
pub type SigningTime = Time;
