//! Reads values of any ASN.1 type by DER and by BER. A table describes the types.
//!
//! [`read`] takes a table of types (a `Schema` of `schema_types`), the index of the node that is the
//! expected type, and octets. It reads the octets as a value of that type, and does not stop at
//! errors. It returns a [`Tree`]: an [`Entry`] for each element, in the order of the input, and a
//! [`Departure`] for each place where a [`Rule`] is broken. [`Rule::verdict`] says whether octets
//! that break a rule are still BER.
//!
//! # Use
//!
//! To check a certificate, do these steps:
//!
//! - Make a table with the types of X.509 by `Schema::new`, and find the node `Certificate` by
//!   `find_node`.
//! - Call `read` with the octets. If `departures` is empty, they are the DER encoding of a
//!   certificate.
//! - Otherwise show each departure at its offset. If each departure has the verdict
//!   [`Verdict::Ber`], the octets are a BER encoding of a certificate.
//! - To print fields, go through `entries`. Each entry has its type and its field, by index in the
//!   table, and the element around it.
//!
//! [`is_der`] and [`is_ber`] give the same answers without a tree. [`read_into`] and [`judge`] do
//! the same and allocate nothing. They write into memory of the caller, as a WebAssembly module or
//! a program in C needs it.
//!
//! # What it does not do
//!
//! - CONTAINING is not checked in a BIT STRING, nor in a string in the constructed form.
//! - The contents of EXTERNAL, EMBEDDED PDV and CHARACTER STRING are read as elements of any type.
//! - Where elements may be of any type, a string in the constructed form is refused, though BER
//!   allows it.
//! - An alternative of a CHOICE that the table does not have is a wrong tag, even if the CHOICE has
//!   an extension marker.
//! - The OBJECT IDENTIFIER that chooses an open type must be in the innermost SEQUENCE around the
//!   open type.
//! - Sizes are counted up to 2^63 - 1.
//! - Values that are nested more than 64 deep are refused.
//!
//! These statements are proved:
//!
//! - There are no departures if and only if the octets are the DER encoding of a value of the node.
//! - All departures have the verdict [`Verdict::Ber`] if and only if the octets are a BER encoding
//!   of a value of the node.
//! - The offset of each departure is that of one of the octets, or their end. Each element is
//!   inside the octets.
//!
//! These facts are not proved: which rule a departure names, at which octet it is, and the other
//! fields of the entries.
#![tactic(auto)]

mod additions;
mod alphabet;
mod bits;
mod bound;
mod chosen;
mod components;
mod constraints;
mod departure;
mod entry;
mod found;
mod front;
mod full;
mod join;
mod known;
mod members;
mod notes;
mod noting;
mod opened;
mod opening;
mod order;
mod outcome;
mod place;
mod reading;
mod role;
mod rule;
mod seen;
mod select;
mod shape;
mod sizes;
mod strings;
mod tag_order;
mod tests;
mod text;
mod texts;
mod tree;
mod typed;
mod types;
mod untyped;
mod verdict;
mod walk;
pub mod walking;

pub use departure::Departure;
pub use entry::Entry;
pub use found::Found;
pub use full::Full;
pub use join::join_segments;
pub use reading::{is_ber, is_der, read, verdict_on};
pub use rule::Rule;
pub use text::Text;
pub use tree::Tree;
pub use verdict::Verdict;
pub use walk::{judge, read_into};
