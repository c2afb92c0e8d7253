//! Headers and elements of the Basic Encoding Rules (X.690 section 8), read from slices.
//!
//! [`read_header`] reads an identifier of any class and number, and a length in any form. It
//! returns the first fault, with its offset, if the octets do not begin with a header. The methods
//! of [`Header`] say which of the Distinguished Encoding Rules a header breaks. [`read_element`]
//! reads an element of definite length. It does not read contents of indefinite length:
//! [`body_len`] finds their end. A caller can also read their elements one by one until
//! [`is_end_of_contents`]. [`Universal`] has the universal types of X.680.
//!
//! Numbers of tags and lengths go up to 4294967295. Nothing here allocates.
//!
//! These statements are proved:
//!
//! - [`read_header`] returns a header if and only if the octets begin with it, and a fault if and
//!   only if the octets have it.
//! - The methods of [`Header`] answer correctly which Distinguished Encoding Rules are broken.
//! - No header is a prefix of another header. The same holds for elements, and for bodies (contents
//!   of indefinite length with the octets that close them).
//! - For each tag of `der_base`, the headers that break none of the Distinguished Encoding Rules
//!   are the headers that these rules allow.
#![tactic(auto)]

mod body;
mod body_fault;
mod element;
mod element_fault;
mod fault;
mod fault_kind;
mod form;
mod header;
mod laws;
mod length;
mod length_octets;
mod tag_number;
mod universal;

pub use body::body_len;
pub use body_fault::BodyFault;
pub use element::{Element, is_end_of_contents, read_element};
pub use element_fault::ElementFault;
pub use fault::Fault;
pub use fault_kind::FaultKind;
pub use form::Form;
pub use header::{Header, read_header};
pub use length::Length;
pub use universal::Universal;
