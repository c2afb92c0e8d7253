//! Reading and writing values of ASN.1 types for C, with one call for each value. The crate `der_c`
//! exports the calls. No function allocates memory.
//!
//! A call that reads a value reads the next element, which must have the tag that the caller
//! passes. It checks the contents by the rules of X.690 for DER, also if the reader reads under
//! BER. A call that writes a value writes one element.
#![tactic(auto)]

mod bit_string;
mod boolean;
mod character;
mod contents;
mod decimal;
mod dotted_arc;
mod integer;
mod null;
mod oid;
mod oid_arcs;
mod oid_contents;
mod oid_from_text;
mod oid_is;
mod oid_text;
mod refusal;
mod shapes;
mod text;
mod time;
mod time_text;
mod time_type;
mod write_bits;
mod write_checked;
mod write_oid_text;
mod write_refusal;
mod write_time;
mod write_value;

pub use bit_string::der_read_bit_string;
pub use boolean::der_read_boolean;
pub use character::der_next_character;
pub use integer::{der_read_int64, der_read_integer, der_read_uint64};
pub use null::der_read_null;
pub use oid::der_read_oid;
pub use oid_arcs::der_oid_arcs;
pub use oid_from_text::der_oid_from_text;
pub use oid_is::der_oid_is;
pub use oid_text::der_oid_text;
pub use text::{DerText, der_read_text, has_form};
pub use time::{DerTime, der_read_time};
pub use time_text::der_time_text;
pub use write_bits::der_write_bit_string;
pub use write_checked::{der_write_integer, der_write_oid, der_write_text};
pub use write_oid_text::der_write_oid_text;
pub use write_refusal::{refuse_no_value, refuse_write};
pub use write_time::{der_write_time, der_write_time_seconds};
pub use write_value::{der_write_boolean, der_write_int64, der_write_null, der_write_uint64};
