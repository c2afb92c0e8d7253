//! Written by asn1_compile from the module SNMPv2-PDU: change the module instead.
//!
//! TimeTicks.

use der_asn1::{Application, Implicit, IntegerIn};

/// A time in hundredths of a second.
pub type TimeTicks = Application<Implicit<IntegerIn<0, 4294967295>, 3>>;
