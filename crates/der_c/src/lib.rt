//! The C functions that `bindings/c/yotremul/der.h` and `der_tree.h` declare. Each function calls
//! the function with the same name in one of the crates `der_c_*`, and has the same contract.
//!
//! No function allocates memory. The caller must ensure only that each pointer and length describe
//! octets, and that each struct was set by a function of this crate.
#![tactic(auto)]

mod assembly;
mod blocks;
mod certificates;
mod counting;
mod errors;
mod extensions;
mod names;
mod reading;
mod trees;
mod values;
mod version;
mod write_values;
mod writing;
