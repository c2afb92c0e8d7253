//! Reading values, for C.
//!
//! Written by tools/c_interface: change the crates that der_c uses instead.
ghost use Rattle.der_asn1.specs.Forms.{bits_form, boolean_form, integer_form, null_form, oid_form};
ghost use Rattle.der_asn1.specs.Integer.{integer_octets, signed_form, signed_octets, unsigned_form};
ghost use Rattle.der_c_core.specs.CReader.{reader_state};
ghost use Rattle.der_c_values.specs.Characters.{TakesCharacter};
ghost use Rattle.der_c_values.specs.Dotted.{ComparesOid, GivesOidText};
ghost use Rattle.der_c_values.specs.OidArcs.{GivesArcs};
ghost use Rattle.der_c_values.specs.OidFromText.{EncodesText};
ghost use Rattle.der_c_values.specs.StringTypes.{IsTextOf, is_string_type, string_form};
ghost use Rattle.der_c_values.specs.TimeText.{GivesTimeText};
ghost use Rattle.der_c_values.specs.TimeValues.{IsTimeOf, date_of, is_time_type, time_form};
ghost use Rattle.der_c_values.specs.ValueCalls.{IsValueOf, ReadsTyped, ReadsValue};
ghost use Rattle.der_c_values.specs.ValueContents.{bits_contents, boolean_contents, null_contents, span_contents};
ghost use Rattle.der_core.specs.ReaderState.{Same};
ghost use Rattle.std.specs.Prelude.{false, ◌^◌};

use der_c_core::{DerBits, DerError, DerReader, DerSpan};
use der_c_values::{DerText, DerTime};

/// Reads a BOOLEAN (X.690 8.2, 11.1) into `value`. The next element must have the tag word `tag`
/// (see `DerElement::tag`).
///
/// A call that fails leaves `value` unchanged. Fails with:
///
/// - the errors of `der_expect`;
/// - `Value` with the tag `tag`, at the position after the element, if the contents are not exactly
///   one octet, `0x00` or `0xFF`.
#[unsafe(no_mangle)]
pub extern "C" fn der_read_boolean(
    reader: &mut DerReader<'_>,
    tag: u64,
    value: &mut bool,
) -> DerError
    ensures same { Same (reader_state reader.old) (reader_state reader.new) }
    ensures reads { ReadsValue boolean_form (IsValueOf boolean_contents) tag
        (reader_state reader.old) result value.old value.new (reader_state reader.new) }
{
    der_c_values::der_read_boolean(reader, tag, value)
}

/// Reads an INTEGER from 0 to 18446744073709551615 (X.690 8.3) into `value`. The next element must
/// have the tag word `tag` (see `DerElement::tag`).
///
/// A call that fails leaves `value` unchanged. Fails with:
///
/// - the errors of `der_expect`;
/// - `Value` with the tag `tag`, at the position after the element, if the contents are empty, if
///   they have more octets than the number needs, or if the number is out of range.
#[unsafe(no_mangle)]
pub extern "C" fn der_read_uint64(reader: &mut DerReader<'_>, tag: u64, value: &mut u64) -> DerError
    ensures same { Same (reader_state reader.old) (reader_state reader.new) }
    ensures reads { ReadsValue (unsigned_form (2 ^ 64)) (IsValueOf (integer_octets false)) tag
        (reader_state reader.old) result value.old value.new (reader_state reader.new) }
{
    der_c_values::der_read_uint64(reader, tag, value)
}

/// Reads an INTEGER from -9223372036854775808 to 9223372036854775807 (X.690 8.3) into `value`. The
/// next element must have the tag word `tag` (see `DerElement::tag`). If `tag` is the tag word of
/// ENUMERATED, the function reads an ENUMERATED (X.690 8.4).
///
/// A call that fails leaves `value` unchanged. Fails with:
///
/// - the errors of `der_expect`;
/// - `Value` with the tag `tag`, at the position after the element, if the contents are empty, if
///   they have more octets than the number needs, or if the number is out of range.
#[unsafe(no_mangle)]
pub extern "C" fn der_read_int64(reader: &mut DerReader<'_>, tag: u64, value: &mut i64) -> DerError
    ensures same { Same (reader_state reader.old) (reader_state reader.new) }
    ensures reads { ReadsValue (signed_form (2 ^ 63)) (IsValueOf signed_octets) tag
        (reader_state reader.old) result value.old value.new (reader_state reader.new) }
{
    der_c_values::der_read_int64(reader, tag, value)
}

/// Reads an INTEGER of any size (X.690 8.3), and sets `value` to its contents. They are a number in
/// two's complement, the most significant octet first, with as few octets as possible, but at least
/// one. The next element must have the tag word `tag` (see `DerElement::tag`).
///
/// A call that fails leaves `value` unchanged. Fails with:
///
/// - the errors of `der_expect`;
/// - `Value` with the tag `tag`, at the position after the element, if the contents are empty or
///   have more octets than the number needs.
#[unsafe(no_mangle)]
pub extern "C" fn der_read_integer<'a>(
    reader: &mut DerReader<'a>,
    tag: u64,
    value: &mut DerSpan<'a>,
) -> DerError
    ensures same { Same (reader_state reader.old) (reader_state reader.new) }
    ensures reads { ReadsValue integer_form (IsValueOf span_contents) tag
        (reader_state reader.old) result value.old value.new (reader_state reader.new) }
{
    der_c_values::der_read_integer(reader, tag, value)
}

/// Reads a BIT STRING (X.690 8.6, 11.2) into `bits`. The next element must have the tag word `tag`
/// (see `DerElement::tag`). The encoding must be primitive: segments are not joined.
///
/// A call that fails leaves `bits` unchanged. Fails with:
///
/// - the errors of `der_expect`;
/// - `Value` with the tag `tag`, at the position after the element, if the contents are empty, if
///   they state more than 7 unused bits, if they state unused bits but have no octets for bits, or
///   if an unused bit is not zero.
#[unsafe(no_mangle)]
pub extern "C" fn der_read_bit_string<'a>(
    reader: &mut DerReader<'a>,
    tag: u64,
    bits: &mut DerBits<'a>,
) -> DerError
    ensures same { Same (reader_state reader.old) (reader_state reader.new) }
    ensures reads { ReadsValue bits_form (IsValueOf bits_contents) tag
        (reader_state reader.old) result bits.old bits.new (reader_state reader.new) }
{
    der_c_values::der_read_bit_string(reader, tag, bits)
}

/// Reads a NULL (X.690 8.8). The next element must have the tag word `tag` (see `DerElement::tag`).
///
/// Fails with:
///
/// - the errors of `der_expect`;
/// - `Value` with the tag `tag`, at the position after the element, if the element has contents.
#[unsafe(no_mangle)]
pub extern "C" fn der_read_null(reader: &mut DerReader<'_>, tag: u64) -> DerError
    ensures same { Same (reader_state reader.old) (reader_state reader.new) }
    ensures reads { ReadsValue null_form (IsValueOf null_contents) tag
        (reader_state reader.old) result tt tt (reader_state reader.new) }
{
    der_c_values::der_read_null(reader, tag)
}

/// Reads an OBJECT IDENTIFIER (X.690 8.19), and sets `oid` to its contents octets. The next element
/// must have the tag word `tag` (see `DerElement::tag`).
///
/// A call that fails leaves `oid` unchanged. Fails with:
///
/// - the errors of `der_expect`;
/// - `Value` with the tag `tag`, at the position after the element, if the contents are empty, if
///   they end inside a subidentifier, or if a subidentifier begins with the octet `0x80`.
#[unsafe(no_mangle)]
pub extern "C" fn der_read_oid<'a>(
    reader: &mut DerReader<'a>,
    tag: u64,
    oid: &mut DerSpan<'a>,
) -> DerError
    ensures same { Same (reader_state reader.old) (reader_state reader.new) }
    ensures reads { ReadsValue oid_form (IsValueOf span_contents) tag
        (reader_state reader.old) result oid.old oid.new (reader_state reader.new) }
{
    der_c_values::der_read_oid(reader, tag, oid)
}

/// Reads a string of the type `string_type` (X.680 41, X.690 8.23) into `text`. `string_type` is
/// the tag word of the universal tag of UTF8String, NumericString, PrintableString, TeletexString,
/// IA5String, VisibleString or BMPString. The next element must have the tag word `tag` (see
/// `DerElement::tag`). `tag` differs from `string_type` if the string has an implicit tag. The
/// encoding must be primitive: segments are not joined.
///
/// A TeletexString may have any octets, because the set of registered character sets is open.
///
/// A call that fails leaves `text` unchanged. Fails with:
///
/// - `TagNumberInvalid` without a position, if `string_type` is not one of these tag words;
/// - the errors of `der_expect`;
/// - `Value` with the tag `tag`, at the position after the element, if the contents are not
///   characters of the type.
#[unsafe(no_mangle)]
pub extern "C" fn der_read_text<'a>(
    reader: &mut DerReader<'a>,
    tag: u64,
    string_type: u64,
    text: &mut DerText<'a>,
) -> DerError
    ensures same { Same (reader_state reader.old) (reader_state reader.new) }
    ensures reads { ReadsTyped (is_string_type string_type) (string_form string_type)
        (IsTextOf string_type) tag (reader_state reader.old) result text.old text.new
        (reader_state reader.new) }
{
    der_c_values::der_read_text(reader, tag, string_type, text)
}

/// Removes the first character of `text`, and sets `character` to its Unicode code point. If `text`
/// is empty, returns false and changes nothing.
///
/// The string type of `text` says how the octets encode characters:
///
/// - A UTF8String is read as UTF-8.
/// - A BMPString has two octets for each character.
/// - Any other string has one octet for each character. A TeletexString is read as ISO 8859-1.
///
/// If the octets do not begin with a character of the string type, returns false and changes
/// nothing. This cannot happen with a text that `der_read_text` has set.
#[unsafe(no_mangle)]
pub extern "C" fn der_next_character(text: &mut DerText<'_>, character: &mut u32) -> bool
    ensures { TakesCharacter text.old result character.old character.new text.new }
{
    der_c_values::der_next_character(text, character)
}

/// Reads a time of the type `time_type` into `time`. `time_type` is the tag word of the universal
/// tag of one of these types:
///
/// - UTCTime (X.690 11.8), whose years are 1950 to 2049 (RFC 5280, 4.1.2.5.1);
/// - GeneralizedTime (X.690 11.7), without a fraction of a second.
///
/// Both are in UTC. The next element must have the tag word `tag` (see `DerElement::tag`). `tag`
/// differs from `time_type` if the time has an implicit tag.
///
/// A call that fails leaves `time` unchanged. Fails with:
///
/// - `TagNumberInvalid` without a position, if `time_type` is not one of these tag words;
/// - the errors of `der_expect`;
/// - `Value` with the tag `tag`, at the position after the element, if the contents do not have the
///   form of the type, or if the time does not exist.
#[unsafe(no_mangle)]
pub extern "C" fn der_read_time(
    reader: &mut DerReader<'_>,
    tag: u64,
    time_type: u64,
    time: &mut DerTime,
) -> DerError
    ensures same { Same (reader_state reader.old) (reader_state reader.new) }
    ensures reads { ReadsTyped (is_time_type time_type) (time_form time_type) (IsTimeOf time_type)
        tag (reader_state reader.old) result time.old time.new (reader_state reader.new) }
{
    der_c_values::der_read_time(reader, tag, time_type, time)
}

/// Writes a text and a zero octet after it to the start of `text`: `time` in UTC, in the format of
/// RFC 3339 (5.6), such as `2026-11-29T11:24:00Z`. Sets `count` to 20, the number of octets of the
/// text without the zero octet. `time.seconds` is ignored.
///
/// A call that fails leaves `text` and `count` unchanged. Fails without a position with:
///
/// - `DateTime`, if the date or the time of day does not exist, or if the year is above 9999;
/// - `Overlength`, if `text` has fewer than 21 octets.
#[unsafe(no_mangle)]
pub extern "C" fn der_time_text(time: &DerTime, text: &mut [u8], count: &mut usize) -> DerError
    ensures { GivesTimeText (date_of time.now) result text.old text.new count.old count.new }
{
    der_c_values::der_time_text(time, text, count)
}

/// Converts an OBJECT IDENTIFIER to dotted notation, such as `2.5.29.17`. `oid` are the contents
/// octets (X.690 8.19). Writes the dotted notation and a final zero octet to the start of `text`.
/// Sets `count` to the number of octets of the dotted notation, without the zero octet.
///
/// A call that fails leaves `text` and `count` unchanged. Fails without a position with:
///
/// - `Value` with the tag OBJECT IDENTIFIER, if `oid` are not contents of an OBJECT IDENTIFIER;
/// - `Overflow`, if a subidentifier does not fit in 128 bits;
/// - `Overlength`, if `text` is too short.
#[unsafe(no_mangle)]
pub extern "C" fn der_oid_text(oid: &[u8], text: &mut [u8], count: &mut usize) -> DerError
    ensures { GivesOidText oid.now result text.old text.new count.old count.new }
{
    der_c_values::der_oid_text(oid, text, count)
}

/// Writes the arcs of an OBJECT IDENTIFIER to the start of `arcs`, for example 2, 5, 29 and 17 for
/// `2.5.29.17`. Sets `count` to the number of arcs. `oid` are the contents octets of the OBJECT
/// IDENTIFIER (X.690 8.19). There is at most one arc more than `oid` has octets.
///
/// A call that fails leaves `arcs` and `count` unchanged. Fails without a position with:
///
/// - `Value` with the tag OBJECT IDENTIFIER, if `oid` are not contents of an OBJECT IDENTIFIER;
/// - `Overflow`, if an arc does not fit in 64 bits;
/// - `Overlength`, if there are more arcs than `arcs` has items.
#[unsafe(no_mangle)]
pub extern "C" fn der_oid_arcs(oid: &[u8], arcs: &mut [u64], count: &mut usize) -> DerError
    ensures { GivesArcs oid.now result arcs.old arcs.new count.old count.new }
{
    der_c_values::der_oid_arcs(oid, arcs, count)
}

/// Converts an OBJECT IDENTIFIER from dotted notation, such as `2.5.29.17` in `text`. Writes the
/// contents octets (X.690 8.19) to the start of `oid`, and sets `count` to the number of octets
/// written. `text` is read without a final zero octet.
///
/// A call that fails leaves `oid` and `count` unchanged. Fails without a position with:
///
/// - `OidMalformed`, if `text` is not the dotted notation of an OBJECT IDENTIFIER. This includes a
///   leading zero in a number, a first number above 2, and a second number above 39 if the first is
///   0 or 1;
/// - `Overflow`, if a subidentifier does not fit in 128 bits, or if there are more than 256
///   contents octets;
/// - `Overlength`, if `oid` is too short.
#[unsafe(no_mangle)]
pub extern "C" fn der_oid_from_text(text: &[u8], oid: &mut [u8], count: &mut usize) -> DerError
    ensures { EncodesText text.now result oid.old oid.new count.old count.new }
{
    der_c_values::der_oid_from_text(text, oid, count)
}

/// Whether `oid` is the OBJECT IDENTIFIER with the dotted notation `text`, such as `2.5.29.17`.
/// `oid` are the contents octets (X.690 8.19). `text` has no final zero octet, and no leading zeros
/// in its numbers.
///
/// The result is false if a subidentifier of `oid` does not fit in 128 bits.
#[unsafe(no_mangle)]
pub extern "C" fn der_oid_is(oid: &[u8], text: &[u8]) -> bool
    ensures { ComparesOid oid.now text.now result }
{
    der_c_values::der_oid_is(oid, text)
}
