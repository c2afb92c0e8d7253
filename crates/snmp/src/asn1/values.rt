//! Written by asn1_compile from the module SNMPv2-PDU: change the module instead.
//!
//! The values of the module.

/// The greatest number of variables in a PDU: 2^31 - 1.
pub const MAX_BINDINGS: u64 = 2147483647;
