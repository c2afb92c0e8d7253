//! The commands of the program `der_tool`. Each command reads octets that are given in hexadecimal:
//!
//! - `head` prints lines that describe the header at the start of DER or BER octets;
//! - `tlv` prints all octets of the element at the start of DER or BER octets;
//! - `order` prints which of two DER elements comes first in the order of a SET OF;
//! - `join` prints the contents of a BER OCTET STRING, with its segments joined.
#![tactic(auto)]

mod answer;
mod arguments;
mod command;
mod element;
mod head;
mod join;
mod order;
mod output;
mod program;
mod tlv;

pub use arguments::run_tool;
pub use output::Output;
pub use program::{respond, run};
