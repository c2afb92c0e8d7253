//! Written by asn1_compile from the module Parcels: change the module instead.
//!
//! Plan.

use crate::asn1::delivery::Delivery;
use der_asn1::SequenceOf;

/// The deliveries of a day, first to last.
pub type Plan<'a> = SequenceOf<'a, Delivery<'a>>;
