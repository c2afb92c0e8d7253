//! Byte strings of at most 4294967295 octets, borrowed or owned.
mod cow;
mod owned;
mod reference;

pub use cow::BytesCow;
pub use owned::BytesOwned;
pub use reference::BytesRef;
