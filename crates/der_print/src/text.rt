//! The parts that printers use:
//!
//! - outputs, which collect text and pass it to a stream or to memory;
//! - text in which control characters and invisible characters are escaped;
//! - names of object identifiers, numbers and times;
//! - elements with their offsets.

mod characters;
mod element;
mod elements;
mod identifier;
mod numbers;
mod output;
mod rows;
mod space;
mod stream;
mod strings;
mod style;
mod target;
mod times;

pub use element::{Element, moved};
pub use elements::Elements;
pub use identifier::{is_hexadecimal_of, long_name, put_arcs, put_identifier, short_name};
pub use numbers::{
    bit_count, put_integer, put_octets, put_octets_with, put_some_octets, small_number,
};
pub use output::Output;
pub use space::Space;
pub use stream::{Sink, Stream};
pub use strings::{Characters, is_text, put_text, put_value_text};
pub use style::Style;
pub use target::Target;
pub use times::{put_iso_time, put_time, put_unix_time};
