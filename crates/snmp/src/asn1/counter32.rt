//! Written by asn1_compile from the module SNMPv2-PDU: change the module instead.
//!
//! Counter32.

use der_asn1::{Application, Implicit, IntegerIn};

/// A counter of 32 bits. After its greatest value it continues at 0.
pub type Counter32 = Application<Implicit<IntegerIn<0, 4294967295>, 1>>;
