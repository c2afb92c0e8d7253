//! Reading strings of the character string types, for C.
ghost use Rattle.std.specs.Prelude.{◌≡◌};
ghost use Rattle.der_core.specs.ReaderState.{Same};
ghost use Rattle.der_c_core.specs.CReader.{reader_state};
ghost use Rattle.der_c_values.specs.ValueCalls.{ReadsTyped};
ghost use Rattle.der_c_values.specs.StringTypes.{is_string_type as is_known_type, string_form, IsTextOf};

use crate::contents::read_octets;
use crate::refusal::{refuse_type, refuse_value};
use der_asn1::{
    BmpStringGrammar, ContentsGrammar, Ia5StringGrammar, NumericStringGrammar,
    PrintableStringGrammar, TeletexStringGrammar, Utf8StringGrammar, VisibleStringGrammar,
};
use der_c_core::{DerError, DerReader};

/// A string of one of the character string types of ASN.1.
#[repr(C)]
#[derive(Clone, Copy)]
pub struct DerText<'a> {
    /// The contents octets of the string. `der_next_character` removes the octets of the character
    /// that it takes.
    pub octets: &'a [u8],
    /// The tag word of the universal tag of the string type (see `DerElement::tag`). The string
    /// type says how the octets encode characters.
    pub string_type: u64,
}

impl DerText<'_> {
    /// A UTF8String without characters.
    pub const EMPTY: DerText<'static> = DerText {
        octets: &[],
        string_type: 0x0C,
    };
}

/// Reads a string of the type `string_type` (X.680 41, X.690 8.23) into `text`. `string_type` is
/// the tag word of the universal tag of UTF8String, NumericString, PrintableString, TeletexString,
/// IA5String, VisibleString or BMPString. The next element must have the tag word `tag` (see
/// `DerElement::tag`). `tag` differs from `string_type` if the string has an implicit tag. The
/// encoding must be primitive: segments are not joined.
///
/// A TeletexString may have any octets, because the set of registered character sets is open.
///
/// A call that fails leaves `text` unchanged. Fails with:
///
/// - `TagNumberInvalid` without a position, if `string_type` is not one of these tag words;
/// - the errors of `der_expect`;
/// - `Value` with the tag `tag`, at the position after the element, if the contents are not
///   characters of the type.
#[inline(always)]
pub fn der_read_text<'a>(
    reader: &mut DerReader<'a>,
    tag: u64,
    string_type: u64,
    text: &mut DerText<'a>,
) -> DerError
    ensures same { Same (reader_state reader.old) (reader_state reader.new) }
    ensures reads { ReadsTyped (is_known_type string_type) (string_form string_type)
        (IsTextOf string_type) tag (reader_state reader.old) result text.old text.new
        (reader_state reader.new) }
{
    if !is_string_type(string_type) {
        return refuse_type(reader);
    }
    let octets = match read_octets(reader, tag) {
        Ok(octets) => octets,
        Err(error) => return error,
    };
    if !has_form(string_type, octets) {
        return refuse_value(reader, tag);
    }
    *text = DerText {
        octets,
        string_type,
    };
    DerError::NONE
}

// Whether the word is that of a string type.
fn is_string_type(string_type: u64) -> bool
    ensures { result ≡ is_known_type string_type }
{
    match string_type {
        0x0C | 0x12 | 0x13 | 0x14 | 0x16 | 0x1A | 0x1E => true,
        _ => false,
    }
}

/// Whether `octets` are the contents of a string of the type `string_type`. `string_type` is the
/// tag word of the universal tag of the type. False if `der_read_text` does not read this type.
pub fn has_form(string_type: u64, octets: &[u8]) -> bool
    ensures { result ≡ string_form string_type octets.now }
{
    match string_type {
        0x0C => Utf8StringGrammar::matches_grammar(octets),
        0x12 => NumericStringGrammar::matches_grammar(octets),
        0x13 => PrintableStringGrammar::matches_grammar(octets),
        0x14 => TeletexStringGrammar::matches_grammar(octets),
        0x16 => Ia5StringGrammar::matches_grammar(octets),
        0x1A => VisibleStringGrammar::matches_grammar(octets),
        0x1E => BmpStringGrammar::matches_grammar(octets),
        _ => false,
    }
}
