//! Written by asn1_compile from the module SNMPv2-PDU: change the module instead.
//!
//! Unsigned32.

use der_asn1::{Application, Implicit, IntegerIn};

/// An unsigned number of 32 bits.
pub type Unsigned32 = Application<Implicit<IntegerIn<0, 4294967295>, 2>>;
