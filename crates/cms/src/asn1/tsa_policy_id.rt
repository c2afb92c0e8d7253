//! Written by asn1_compile from the module CMS: change the module instead.
//!
//! TsaPolicyId.

use der_asn1::ObjectIdentifierRef;

/// The policy of a timestamp (RFC 3161, 2.4.1).
pub type TsaPolicyId<'a> = ObjectIdentifierRef<'a>;
