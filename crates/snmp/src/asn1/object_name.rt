//! Written by asn1_compile from the module SNMPv2-PDU: change the module instead.
//!
//! ObjectName.

use der_asn1::ObjectIdentifierRef;

/// The name of a variable, an OBJECT IDENTIFIER.
pub type ObjectName<'a> = ObjectIdentifierRef<'a>;
