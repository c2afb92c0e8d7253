//! Writing a BOOLEAN, an INTEGER or a NULL, for C.
ghost use Rattle.std.specs.Prelude.{[], false};
ghost use Rattle.der_asn1.specs.Integer.{integer_octets, signed_octets};
ghost use Rattle.der_c_core.specs.CWriter.{KeepsOpen, writer_state};
ghost use Rattle.der_c_core.specs.WriterCalls.{WritesElement};
ghost use Rattle.der_c_values.specs.ValueContents.{boolean_contents};

use der_asn1::IntegerNumber;
use der_c_core::{DerError, DerWriter, der_write_element};

/// Writes a BOOLEAN (X.690 8.2, 11.1) with the tag word `tag` (see `DerElement::tag`).
///
/// Fails with the errors of `der_write_element`. After an error, `writer` has failed.
#[inline(always)]
pub fn der_write_boolean(writer: &mut DerWriter<'_>, tag: u64, value: bool) -> DerError
    ensures writes { WritesElement tag (boolean_contents value) (writer_state writer.old) result
        (writer_state writer.new) }
    ensures keeps_open { KeepsOpen writer.old writer.new }
{
    if value {
        der_write_element(writer, tag, &[0xFF])
    } else {
        der_write_element(writer, tag, &[0])
    }
}

/// Writes an INTEGER (X.690 8.3) with the tag word `tag` (see `DerElement::tag`).
///
/// Fails with the errors of `der_write_element`. After an error, `writer` has failed.
#[inline(always)]
pub fn der_write_uint64(writer: &mut DerWriter<'_>, tag: u64, value: u64) -> DerError
    ensures writes { WritesElement tag (integer_octets false value) (writer_state writer.old) result
        (writer_state writer.new) }
    ensures keeps_open { KeepsOpen writer.old writer.new }
{
    der_write_element(writer, tag, value.to_contents().as_slice())
}

/// Writes an INTEGER (X.690 8.3) with the tag word `tag` (see `DerElement::tag`). If `tag` is the
/// tag word of ENUMERATED, the function writes an ENUMERATED (X.690 8.4).
///
/// Fails with the errors of `der_write_element`. After an error, `writer` has failed.
#[inline(always)]
pub fn der_write_int64(writer: &mut DerWriter<'_>, tag: u64, value: i64) -> DerError
    ensures writes { WritesElement tag (signed_octets value) (writer_state writer.old) result
        (writer_state writer.new) }
    ensures keeps_open { KeepsOpen writer.old writer.new }
{
    der_write_element(writer, tag, value.to_contents().as_slice())
}

/// Writes a NULL (X.690 8.8) with the tag word `tag` (see `DerElement::tag`).
///
/// Fails with the errors of `der_write_element`. After an error, `writer` has failed.
#[inline(always)]
pub fn der_write_null(writer: &mut DerWriter<'_>, tag: u64) -> DerError
    ensures writes { WritesElement tag [] (writer_state writer.old) result
        (writer_state writer.new) }
    ensures keeps_open { KeepsOpen writer.old writer.new }
{
    der_write_element(writer, tag, &[])
}
