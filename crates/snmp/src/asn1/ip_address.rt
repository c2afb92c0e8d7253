//! Written by asn1_compile from the module SNMPv2-PDU: change the module instead.
//!
//! IpAddress.

use der_asn1::{Application, Implicit, OctetStringRef};

/// An IP address of version 4: four octets. Their number is not checked.
pub type IpAddress<'a> = Application<Implicit<OctetStringRef<'a>, 0>>;
