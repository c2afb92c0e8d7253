//! Parts of the encoding of a certificate, a request or a revocation list: the octets that its
//! signature covers, its names and its keys.

mod certificate;
mod field;
mod request;
mod revocation_list;

pub use field::{field_between, field_in_middle, first_field};
