//! The basic values of the Distinguished Encoding Rules: lengths, tags, classes, encoding rules and
//! errors, with their printed texts. They are modelled on those of the Rust crate `der` 0.8.3.
//! Nothing here allocates.
//!
//! The definitions that the contracts use, from the standard ITU-T X.690, are in `specs/`, separate
//! from the code.
#![tactic(auto)]

mod comparisons;
mod constants;
pub mod encoding_rules;
pub mod error;
mod laws;
pub mod length;
pub mod tag;

pub use encoding_rules::EncodingRules;
pub use error::{Error, ErrorKind, Result};
pub use length::Length;
pub use tag::{
    CLASS_APPLICATION, CLASS_CONTEXT_SPECIFIC, CLASS_PRIVATE, CLASS_UNIVERSAL, Class, Tag, TagMode,
    TagNumber,
};
