//! Reading and writing of ASN.1 DER: tags, lengths, headers, readers and writers of the
//! Distinguished Encoding Rules (ITU-T X.690). The library is modelled on the Rust crate `der`
//! 0.8.3.
//!
//! This crate re-exports all of `der_base` and `der_core`. It adds byte strings, texts, and the
//! module [`example`]. The terms in the contracts of a crate are defined in its folder `specs`.
#![tactic(auto)]

mod bytes;
mod comparisons;
mod constants;
pub mod example;
mod laws;
mod length;
mod referenced;
mod string;

pub use bytes::{BytesCow, BytesOwned, BytesRef};
pub use der_base::{
    CLASS_APPLICATION, CLASS_CONTEXT_SPECIFIC, CLASS_PRIVATE, CLASS_UNIVERSAL, Class,
    EncodingRules, Error, ErrorKind, Length, Result, Tag, TagMode, TagNumber,
};
pub use der_core::{
    Decode, DecodeBytes, DecodeError, DecodeValue, DerOrd, Described, Encode, EncodeRef,
    EncodeValue, EncodeValueRef, FieldsCall, FixedTag, FromFields, HasFields, Header,
    IsConstructed, IsValue, Lawful, Lends, Octets, OrdIsValueOrd, Orderly, Position, ReadValue,
    Reader, ReaderExt, Resumption, Sequence, SliceReader, SliceWriter, TagPeek, Tagged, Turns,
    ValueOrd, Writer, WrittenValue, close_value, decode_contents, decode_fields, decode_header,
    decode_indefinite_length, decode_length, decode_sequence, decode_tlv, decode_wrapped,
    der_cmp_tlv, encode_tlv, encode_to_vec_in, encode_value_to_slice, encoded_len_tlv, field_refs,
    iter_cmp, iter_cmp_owned, octets_len, place_before, read_eoc, read_value, to_der_in,
};
pub use length::indefinite::{read_constructed_vec, segment_header};
pub use referenced::{box_to_ref, slice_to_owned};
pub use string::{StringCow, StringOwned, StringRef};
