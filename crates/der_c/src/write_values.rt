//! Writing values, for C.
//!
//! Written by tools/c_interface: change the crates that der_c uses instead.
ghost use Rattle.der_asn1.specs.Forms.{integer_form, oid_form};
ghost use Rattle.der_asn1.specs.Integer.{integer_octets, signed_octets};
ghost use Rattle.der_c_core.specs.CWriter.{KeepsOpen, writer_state};
ghost use Rattle.der_c_core.specs.WriterCalls.{WritesElement};
ghost use Rattle.der_c_values.specs.StringTypes.{string_form};
ghost use Rattle.der_c_values.specs.TimeValues.{WritesSeconds, date_of, is_time_of, time_contents};
ghost use Rattle.der_c_values.specs.ValueContents.{boolean_contents};
ghost use Rattle.der_c_values.specs.WriteCalls.{WritesBits, WritesValue};
ghost use Rattle.der_c_values.specs.WriteOidText.{WritesOidText};
ghost use Rattle.std.specs.Prelude.{[], false};

use der_c_core::{DerError, DerWriter};
use der_c_values::DerTime;

/// Writes a BOOLEAN (X.690 8.2, 11.1) with the tag word `tag` (see `DerElement::tag`).
///
/// Fails with the errors of `der_write_element`. After an error, `writer` has failed.
#[unsafe(no_mangle)]
pub extern "C" fn der_write_boolean(writer: &mut DerWriter<'_>, tag: u64, value: bool) -> DerError
    ensures writes { WritesElement tag (boolean_contents value) (writer_state writer.old) result
        (writer_state writer.new) }
    ensures keeps_open { KeepsOpen writer.old writer.new }
{
    der_c_values::der_write_boolean(writer, tag, value)
}

/// Writes an INTEGER (X.690 8.3) with the tag word `tag` (see `DerElement::tag`).
///
/// Fails with the errors of `der_write_element`. After an error, `writer` has failed.
#[unsafe(no_mangle)]
pub extern "C" fn der_write_uint64(writer: &mut DerWriter<'_>, tag: u64, value: u64) -> DerError
    ensures writes { WritesElement tag (integer_octets false value) (writer_state writer.old) result
        (writer_state writer.new) }
    ensures keeps_open { KeepsOpen writer.old writer.new }
{
    der_c_values::der_write_uint64(writer, tag, value)
}

/// Writes an INTEGER (X.690 8.3) with the tag word `tag` (see `DerElement::tag`). If `tag` is the
/// tag word of ENUMERATED, the function writes an ENUMERATED (X.690 8.4).
///
/// Fails with the errors of `der_write_element`. After an error, `writer` has failed.
#[unsafe(no_mangle)]
pub extern "C" fn der_write_int64(writer: &mut DerWriter<'_>, tag: u64, value: i64) -> DerError
    ensures writes { WritesElement tag (signed_octets value) (writer_state writer.old) result
        (writer_state writer.new) }
    ensures keeps_open { KeepsOpen writer.old writer.new }
{
    der_c_values::der_write_int64(writer, tag, value)
}

/// Writes an INTEGER of any size (X.690 8.3) with the tag word `tag` (see `DerElement::tag`).
/// `octets` are its contents: a number in two's complement, the most significant octet first, with
/// as few octets as possible.
///
/// After an error, `writer` has failed. Fails with:
///
/// - `Value` with the tag `tag`, without a position, if there are no `octets`, or more than the
///   number needs;
/// - the errors of `der_write_element`.
#[unsafe(no_mangle)]
pub extern "C" fn der_write_integer(writer: &mut DerWriter<'_>, tag: u64, octets: &[u8]) -> DerError
    ensures writes { WritesValue (integer_form octets.now) octets.now tag
        (writer_state writer.old) result (writer_state writer.new) }
    ensures keeps_open { KeepsOpen writer.old writer.new }
{
    der_c_values::der_write_integer(writer, tag, octets)
}

/// Writes a BIT STRING (X.690 8.6, 11.2) with the tag word `tag` (see `DerElement::tag`). `octets`
/// hold the bits. The low `unused` bits of the last octet are not part of the string, and must be
/// zero.
///
/// After an error, `writer` has failed. A call that fails may have written the header and the first
/// octet of the contents, which remain. Fails with:
///
/// - `Value` with the tag `tag`, without a position, if `unused` is more than 7, if `unused` is not
///   0 and there are no `octets`, or if an unused bit is not zero;
/// - `Overflow` without a position, if there are more than 4294967294 `octets`;
/// - the errors of `der_write_header` and `der_write`.
#[unsafe(no_mangle)]
pub extern "C" fn der_write_bit_string(
    writer: &mut DerWriter<'_>,
    tag: u64,
    octets: &[u8],
    unused: u8,
) -> DerError
    ensures writes { WritesBits unused octets.now tag (writer_state writer.old) result
        (writer_state writer.new) }
    ensures keeps_open { KeepsOpen writer.old writer.new }
{
    der_c_values::der_write_bit_string(writer, tag, octets, unused)
}

/// Writes a NULL (X.690 8.8) with the tag word `tag` (see `DerElement::tag`).
///
/// Fails with the errors of `der_write_element`. After an error, `writer` has failed.
#[unsafe(no_mangle)]
pub extern "C" fn der_write_null(writer: &mut DerWriter<'_>, tag: u64) -> DerError
    ensures writes { WritesElement tag [] (writer_state writer.old) result
        (writer_state writer.new) }
    ensures keeps_open { KeepsOpen writer.old writer.new }
{
    der_c_values::der_write_null(writer, tag)
}

/// Writes an OBJECT IDENTIFIER (X.690 8.19) with the tag word `tag` (see `DerElement::tag`).
/// `octets` are its contents octets.
///
/// After an error, `writer` has failed. Fails with:
///
/// - `Value` with the tag `tag`, without a position, if `octets` are not contents of an OBJECT
///   IDENTIFIER;
/// - the errors of `der_write_element`.
#[unsafe(no_mangle)]
pub extern "C" fn der_write_oid(writer: &mut DerWriter<'_>, tag: u64, octets: &[u8]) -> DerError
    ensures writes { WritesValue (oid_form octets.now) octets.now tag
        (writer_state writer.old) result (writer_state writer.new) }
    ensures keeps_open { KeepsOpen writer.old writer.new }
{
    der_c_values::der_write_oid(writer, tag, octets)
}

/// Writes an OBJECT IDENTIFIER (X.690 8.19) with the tag word `tag` (see `DerElement::tag`). `text`
/// is the OBJECT IDENTIFIER in dotted notation, such as `2.5.29.17`. `text` has no final zero
/// octet, and no leading zeros in its numbers.
///
/// After an error, `writer` has failed. Fails with:
///
/// - `Value` with the tag `tag`, without a position, if `text` is not the dotted notation of an
///   OBJECT IDENTIFIER, if a subidentifier does not fit in 128 bits, or if there are more than 256
///   contents octets;
/// - the errors of `der_write_element`.
#[unsafe(no_mangle)]
pub extern "C" fn der_write_oid_text(writer: &mut DerWriter<'_>, tag: u64, text: &[u8]) -> DerError
    ensures writes { WritesOidText text.now tag (writer_state writer.old) result
        (writer_state writer.new) }
    ensures keeps_open { KeepsOpen writer.old writer.new }
{
    der_c_values::der_write_oid_text(writer, tag, text)
}

/// Writes a string of the type `string_type` (X.680 41, X.690 8.23) with the tag word `tag` (see
/// `DerElement::tag`). `string_type` is one of the tag words that `der_read_text` names, and
/// `octets` are the contents.
///
/// After an error, `writer` has failed. Fails with:
///
/// - `Value` with the tag `tag`, without a position, if `octets` are not characters of the type, or
///   if `string_type` is not the tag word of a string type;
/// - the errors of `der_write_element`.
#[unsafe(no_mangle)]
pub extern "C" fn der_write_text(
    writer: &mut DerWriter<'_>,
    tag: u64,
    string_type: u64,
    octets: &[u8],
) -> DerError
    ensures writes { WritesValue (string_form string_type octets.now) octets.now tag
        (writer_state writer.old) result (writer_state writer.new) }
    ensures keeps_open { KeepsOpen writer.old writer.new }
{
    der_c_values::der_write_text(writer, tag, string_type, octets)
}

/// Writes a time of the type `time_type` with the tag word `tag` (see `DerElement::tag`).
/// `time_type` is one of the two tag words that `der_read_time` names. Writes the date and the time
/// of day, and ignores `time.seconds`.
///
/// After an error, `writer` has failed. Fails with:
///
/// - `Value` with the tag `tag`, without a position, if the date or the time of day does not exist,
///   if the year is above 9999, if the type is UTCTime and the year is not from 1950 to 2049, or if
///   `time_type` is not the tag word of a time type;
/// - the errors of `der_write_element`.
#[unsafe(no_mangle)]
pub extern "C" fn der_write_time(
    writer: &mut DerWriter<'_>,
    tag: u64,
    time_type: u64,
    time: &DerTime,
) -> DerError
    ensures writes { WritesValue (is_time_of time_type (date_of time.now))
        (time_contents time_type (date_of time.now)) tag (writer_state writer.old) result
        (writer_state writer.new) }
    ensures keeps_open { KeepsOpen writer.old writer.new }
{
    der_c_values::der_write_time(writer, tag, time_type, time)
}

/// Writes a time as `der_write_time` does. The time is `seconds` after 1970-01-01T00:00:00Z, or
/// before it if `seconds` is negative.
///
/// After an error, `writer` has failed. Fails with:
///
/// - `Value` with the tag `tag`, without a position, if the year of the time is not from 0 to 9999,
///   if the type is UTCTime and the year is not from 1950 to 2049, or if `time_type` is not the tag
///   word of a time type;
/// - the errors of `der_write_element`.
#[unsafe(no_mangle)]
pub extern "C" fn der_write_time_seconds(
    writer: &mut DerWriter<'_>,
    tag: u64,
    time_type: u64,
    seconds: i64,
) -> DerError
    ensures writes { WritesSeconds time_type seconds tag (writer_state writer.old) result
        (writer_state writer.new) }
    ensures keeps_open { KeepsOpen writer.old writer.new }
{
    der_c_values::der_write_time_seconds(writer, tag, time_type, seconds)
}
