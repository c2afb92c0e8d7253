//! Compiles ASN.1 modules to Rust: it writes the types that decode and encode the values of a
//! module. The crate also has the compiler as a program. The program can write a table of types
//! instead.
#![tactic(auto)]

mod command;
mod compiled;
mod library;
mod output;
mod program;
mod schema;

pub use compiled::Compiled;
pub use output::{OutputFile, compile, pascal_name, read_external, snake_name};
pub use program::run_compile;
