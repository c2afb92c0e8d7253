//! Reading of contents that consist of segments (X.690 8.7.3).

pub mod indefinite;
