//! Writing names, extensions, requests and certificates from parts that are already encoded, for C.
//!
//! Each call writes one element with a writer of `der_c_core`. No function allocates memory.

mod attribute;
mod certificate;
mod extension;
mod length;
mod request;
mod shapes;
mod signed;
mod span;
mod validity;

pub use attribute::der_write_name_attribute;
pub use certificate::{DerCertificateParts, der_write_certificate_part};
pub use extension::der_write_extension;
pub use request::der_write_request_part;
pub use signed::{der_write_algorithm, der_write_signed};
pub use validity::der_write_validity;
