//! Written by asn1_compile from the module SNMPv2-PDU: change the module instead.
//!
//! Counter64.

use der_asn1::{Application, Implicit, IntegerIn};

/// A counter of 64 bits. After its greatest value it continues at 0.
pub type Counter64 = Application<Implicit<IntegerIn<0, 18446744073709551615>, 6>>;
