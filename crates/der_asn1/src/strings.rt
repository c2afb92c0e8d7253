//! Strings of bits, octets and characters.

pub(crate) mod bit_string;
pub(crate) mod bit_string_of;
pub(crate) mod bmp_string;
pub(crate) mod general_string;
pub(crate) mod ia5_string;
pub(crate) mod named_bits;
pub(crate) mod no_unused_bits;
pub(crate) mod numeric_string;
pub(crate) mod octet_string;
pub(crate) mod octet_string_of;
pub(crate) mod printable_string;
pub(crate) mod teletex_string;
pub(crate) mod text_grammar;
pub(crate) mod utf8_string;
pub(crate) mod videotex_string;
pub(crate) mod visible_string;
