//! Rewrites values from BER to DER. A table of types describes them.
//!
//! [`to_der`] takes a table of types (a `Schema` of `schema_types`), the index of a node, which is
//! the type, and octets that are an encoding of a value of the type by BER. Octets that are DER
//! already are copied. Otherwise it writes the value in these ways:
//!
//! - Lengths are definite, in the fewest octets, and strings are in the primitive form.
//! - The elements of each SET and SET OF are in order, and DEFAULT values are left out.
//! - TRUE is `FF`, and BIT STRINGs with named bits have no zero bits at their end.
//! - Times are in UTC, with seconds.
//!
//! # What stays as it is
//!
//! - the contents of an OCTET STRING, since they may be signed;
//! - elements of unknown type, and elements in EXTERNAL, EMBEDDED PDV and CHARACTER STRING;
//! - a REAL;
//! - a GeneralizedTime without a zone, and a time that cannot be written in UTC.
//!
//! If one of these is not DER, it is not made DER, and [`Written::is_der`] is false.
//!
//! # Time and memory
//!
//! The contents of each element are copied for each level of elements around them, of which there
//! are at most 64. The end of each indefinite length is searched. Sorting needs time, too. The
//! memory is a few times the size of the input.
#![tactic(auto)]

mod bits;
mod components;
mod element;
mod generalized_time;
mod items;
mod known;
mod moment;
mod order;
mod piece;
mod primitive;
mod refusal;
mod rewriting;
mod utc_time;
mod value;
mod writing;
mod written;
mod zone;

pub use refusal::Refusal;
pub use writing::to_der;
pub use written::Written;
