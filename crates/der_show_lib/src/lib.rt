//! The program `der_show`. For a file of a known kind, in DER, BER or PEM, it prints the fields.
//! For any other file, it prints the elements. A file is printed as far as it can be read. Below
//! the file, the program lists the departures: the places at which the file breaks a rule of DER.
#![tactic(auto)]

mod blocks;
mod departures;
mod elements;
mod files;
mod held;
mod help;
mod json;
mod lint;
mod modules;
mod options;
mod place;
mod print;
mod program;
mod rewritten;
mod show;
mod texts;
mod value;
mod values;
mod verify;

pub use der_print::{Output, Sink};
pub use files::show_octets;
pub use modules::{NoTable, table_of_modules};
pub use options::{Options, ShowCommand, Shown, TERMINAL_WIDTH, Verified};
pub use program::{Finished, run_show, show_in_memory};
pub use schema_kinds::Kind;
