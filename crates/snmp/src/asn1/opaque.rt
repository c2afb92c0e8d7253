//! Written by asn1_compile from the module SNMPv2-PDU: change the module instead.
//!
//! Opaque.

use der_asn1::{Application, Implicit, OctetStringRef};

/// The encoding of a value of any type, as octets.
pub type Opaque<'a> = Application<Implicit<OctetStringRef<'a>, 4>>;
