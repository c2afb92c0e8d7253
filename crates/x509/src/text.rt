//! The characters of strings in names and attributes.

mod bmp;
mod directory;
mod latin1;
mod string_text;

pub use latin1::Latin1;
pub use string_text::Text;
