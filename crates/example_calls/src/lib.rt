//! Examples of code that calls the libraries, as a user would write it. The guide `docs/CALLING.md`
//! quotes these examples.
#![tactic(auto)]

pub mod algorithm_identifier;
pub mod certificate;
pub mod contents;
pub mod fields;
pub mod front;
pub mod key_info;
pub mod message;
pub mod my_octets;
pub mod nested;
pub mod public_key;
pub mod reader;
pub mod sequence;
pub mod set_of;
pub mod version;
pub mod writer;
