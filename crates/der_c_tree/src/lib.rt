//! Values of any known ASN.1 type as trees of elements, in memory of the caller. The functions
//! give:
//!
//! - the kind of a value, such as a certificate;
//! - its elements, with their types, the names of their fields, and texts for their values;
//! - the departures: the places at which an encoding breaks a rule of DER.
//!
//! It also decodes and encodes PEM blocks and base64.
//!
//! The crate `der_c` exports the functions to C, and `der_page` exports functions to WebAssembly
//! that call them. No function allocates memory. A function that prints returns the number of
//! octets printed, or `usize::MAX` (`SIZE_MAX` in C) if they do not fit.
#![tactic(auto)]

mod answer;
mod departures;
mod ended;
mod find;
mod found;
mod kinds;
mod output;
mod part;
mod pem_text;
mod read;
mod texts;
mod value;

pub use answer::{FULL, NO_ROOM, NONE};
pub use find::{der_tree_child, der_tree_find};
pub use found::DerTreeFound;
pub use kinds::{
    der_kind_find, der_kind_of_label, der_kind_type, der_kind_word, der_known_types,
    der_known_types_room, der_type_find, put_kind_word,
};
pub use output::printed;
pub use part::{der_tree_contents, der_tree_octets};
pub use pem_text::{
    DerPemBlock, DerPemReader, der_base64_decode, der_base64_encode, der_pem_next, der_pem_write,
};
pub use read::der_tree_read;
pub use schema_read::Entry as DerEntry;
pub use texts::{der_tree_name, der_tree_text, der_tree_type};
pub use value::put_value;
