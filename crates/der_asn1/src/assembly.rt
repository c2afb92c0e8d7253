//! Making a SEQUENCE OF or a SET OF from its items: their encodings are written into a buffer of
//! the caller.

mod lists;
mod written_item;
mod written_values;

pub use lists::{sequence_of, set_of};
pub use written_item::WrittenItem;
