//! Readers and writers of the Distinguished Encoding Rules, decoding and encoding of tags, lengths
//! and headers, and orders of values by their encodings. The crate is modelled on the Rust crate
//! `der`.
//!
//! The meaning of readers and writers, and the result of each of their functions, are specified in
//! `specs/`; the grammar of ITU-T X.690 is in the crate `der_base`.
#![tactic(auto)]

mod comparisons;
pub mod decode;
mod described;
pub mod encode;
pub mod encode_ref;
mod from_fields;
pub mod header;
mod identifier;
mod laws;
mod length;
mod ord;
pub mod reader;
mod sequence;
mod tag;
pub mod writer;

pub use decode::{
    Decode, DecodeBytes, DecodeError, DecodeValue, IsValue, Lawful, ReadValue, decode_contents,
    decode_tlv,
};
pub use described::Described;
pub use encode::{
    Encode, EncodeValue, FieldsCall, HasFields, WrittenValue, encode_tlv, encode_to_vec_in,
    encode_value_to_slice, encoded_len_tlv, octets_len, place_before, to_der_in,
};
pub use encode_ref::{EncodeRef, EncodeValueRef};
pub use from_fields::{FromFields, decode_fields, decode_sequence, decode_wrapped};
pub use header::{Header, decode_header};
pub use identifier::universal_tag;
pub use length::decode_length;
pub use length::indefinite::decode_indefinite_length;
pub use length::turns::Turns;
pub use ord::{DerOrd, OrdIsValueOrd, Orderly, ValueOrd, der_cmp_tlv, iter_cmp, iter_cmp_owned};
pub use reader::{
    Lends, Octets, Position, Reader, ReaderExt, Resumption, SliceReader, close_value, read_eoc,
    read_value,
};
pub use sequence::Sequence;
pub use tag::TagPeek;
pub use tag::fixed::{FixedTag, IsConstructed, Tagged};
pub use writer::{SliceWriter, Writer};
