//! Written by asn1_compile from the module X509: change the module instead.
//!
//! GeneralNames.

use crate::asn1::general_name::GeneralName;
use der_asn1::SequenceOf;

/// Names, each of one of nine forms (RFC 5280, 4.2.1.6), borrowed from the input. That there is at
/// least one is not checked.
pub type GeneralNames<'a> = SequenceOf<'a, GeneralName<'a>>;
