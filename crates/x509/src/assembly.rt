//! Making extensions and attributes from their values: the encodings of the values are written into
//! a buffer of the caller.

mod attribute;
mod extension;
mod written;

pub use attribute::attribute_of;
pub use extension::extension_of;
