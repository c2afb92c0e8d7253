//! Writing OBJECT IDENTIFIERs from dotted notation, for C.
ghost use Rattle.der_c_core.specs.CWriter.{KeepsOpen, writer_state};
ghost use Rattle.der_c_values.specs.WriteOidText.{WritesOidText};

use crate::oid_from_text::contents_of;
use crate::write_refusal::refuse_no_value;
use der_c_core::{DerError, DerWriter, der_write_element};

/// Writes an OBJECT IDENTIFIER (X.690 8.19) with the tag word `tag` (see `DerElement::tag`). `text`
/// is the OBJECT IDENTIFIER in dotted notation, such as `2.5.29.17`. `text` has no final zero
/// octet, and no leading zeros in its numbers.
///
/// After an error, `writer` has failed. Fails with:
///
/// - `Value` with the tag `tag`, without a position, if `text` is not the dotted notation of an
///   OBJECT IDENTIFIER, if a subidentifier does not fit in 128 bits, or if there are more than 256
///   contents octets;
/// - the errors of `der_write_element`.
pub fn der_write_oid_text(writer: &mut DerWriter<'_>, tag: u64, text: &[u8]) -> DerError
    ensures writes { WritesOidText text.now tag (writer_state writer.old) result
        (writer_state writer.new) }
    ensures keeps_open { KeepsOpen writer.old writer.new }
{
    match contents_of(text) {
        Ok(contents) => der_write_element(writer, tag, contents.as_slice()),
        Err(_) => refuse_no_value(writer, tag),
    }
}
