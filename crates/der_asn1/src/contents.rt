//! ASN.1 types that are described by a tag and a check of the contents octets (see
//! [`Checked`](crate::Checked)). Values of ASN.1 types are compared and printed by their contents
//! octets.

pub(crate) mod checked;
pub(crate) mod comparisons;
pub(crate) mod contents_order;
pub(crate) mod form;
pub(crate) mod grammar;
pub(crate) mod hexadecimal;
pub(crate) mod printed;
pub(crate) mod wrapped_order;
pub(crate) mod wrapped_printed;
