//! The functions of the WebAssembly module for pages in a browser and programs in JavaScript. They
//! give:
//!
//! - the kind of a value, such as a certificate;
//! - its elements, with their types, the names of their fields, and texts for their values;
//! - the departures: the places at which an encoding breaks a rule of DER;
//! - the blocks of a PEM text.
//!
//! No function allocates memory: each function writes into memory of the caller. A function that
//! prints returns the number of octets printed, or `usize::MAX` if they do not fit. If there is too
//! little memory, `page_find` returns `FULL`, and `page_read` returns false. The caller can then
//! try again with more memory.
#![tactic(auto)]

mod blocks;
mod elements;
mod kinds;
mod rows;
mod version;
