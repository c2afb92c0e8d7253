//! Readers, writers and elements as C structs, and the functions of `bindings/c/yotremul/der.h`
//! that read and write with them. The crate `der_c` exports these functions to C.
//!
//! No function allocates memory. The caller must ensure only that each pointer and length describe
//! octets, and that each struct was set by a function of this crate.
#![tactic(auto)]

mod bits;
mod compare;
mod counter;
mod element;
mod enter;
mod error;
mod header;
mod located;
mod mark;
mod octets;
mod peek;
mod reader;
mod scan;
mod set;
mod shapes;
mod short;
mod span;
mod tag;
mod text;
mod tree;
mod writer;

pub use bits::DerBits;
pub use compare::der_compare;
pub use counter::{
    DerCounter, der_count, der_count_begin, der_count_element, der_count_end, der_count_header,
    der_counted, der_counter_init,
};
pub use element::{DerElement, der_expect, der_optional, der_read_element, der_skip};
pub use enter::{der_enter, der_open};
pub use error::{DerError, c_error};
pub use header::{DerHeader, der_read_header};
pub use located::{located_error, located_in};
pub use mark::DerMark;
pub use octets::der_element_octets;
pub use peek::{der_next_is, der_peek};
pub use reader::DerReader;
pub use reader::calls::{der_finish, der_is_finished, der_position, der_reader_init};
pub use scan::der_scan;
pub use set::der_sort_set;
pub use span::DerSpan;
pub use tag::{is_tag, word_of};
pub use text::der_error_text;
pub use tree::{DerNode, der_read_tree};
pub use writer::DerWriter;
pub use writer::calls::{
    der_element_length, der_write, der_write_element, der_write_header, der_writer_init,
    der_written,
};
pub use writer::part::{der_begin, der_end, der_writer_fail, der_writer_finish};
pub use writer::parts::der_write_parts;
