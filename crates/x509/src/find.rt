//! Lookup of extensions and attributes by their type.

pub mod attr;
mod attributes;
mod error;
pub mod ext;
mod extensions;
mod general_names;
mod known;
mod known_attribute;
pub mod lenient;
mod lookups;
mod name_attributes;
mod names;
mod occurrence;
mod typed;

pub use error::FindError;
pub use known::{Known, KnownExtension};
pub use known_attribute::KnownAttribute;
pub use lenient::{Lenient, LenientExtension, find_lenient};
pub use name_attributes::NameAttributes;
pub use occurrence::Occurrence;
pub use typed::Typed;
