//! Written by asn1_compile from the module Visits: change the module instead.
//!
//! The types of the module.

mod visit;

pub use visit::{Visit, VisitFields};
