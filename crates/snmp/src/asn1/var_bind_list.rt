//! Written by asn1_compile from the module SNMPv2-PDU: change the module instead.
//!
//! VarBindList.

use crate::asn1::var_bind::VarBind;
use der_asn1::SequenceOf;

/// A list of variables with their values.
pub type VarBindList<'a> = SequenceOf<'a, VarBind<'a>>;
