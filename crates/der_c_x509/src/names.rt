//! Distinguished names as text, which is written into memory of the caller.

mod hidden;
mod length;
mod levels;
mod name_text;
mod room;

pub use hidden::der_is_hidden;
pub use name_text::der_name_text;
