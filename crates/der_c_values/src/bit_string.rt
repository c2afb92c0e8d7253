//! Reading a BIT STRING, for C.
ghost use Rattle.std.specs.Prelude.{◌≡◌, true};
ghost use Rattle.der_asn1.specs.Forms.{bits_form};
ghost use Rattle.der_core.specs.ReaderState.{Same};
ghost use Rattle.der_c_core.specs.CReader.{reader_state};
ghost use Rattle.der_c_values.specs.ValueCalls.{ReadsValue, IsValueOf};
ghost use Rattle.der_c_values.specs.ValueContents.{bits_contents};

use crate::contents::read_octets;
use crate::refusal::refuse_value;
use der_asn1::{BitStringGrammar, ContentsGrammar};
use der_c_core::{DerBits, DerError, DerReader};

/// Reads a BIT STRING (X.690 8.6, 11.2) into `bits`. The next element must have the tag word `tag`
/// (see `DerElement::tag`). The encoding must be primitive: segments are not joined.
///
/// A call that fails leaves `bits` unchanged. Fails with:
///
/// - the errors of `der_expect`;
/// - `Value` with the tag `tag`, at the position after the element, if the contents are empty, if
///   they state more than 7 unused bits, if they state unused bits but have no octets for bits, or
///   if an unused bit is not zero.
#[inline(always)]
pub fn der_read_bit_string<'a>(
    reader: &mut DerReader<'a>,
    tag: u64,
    bits: &mut DerBits<'a>,
) -> DerError
    ensures same { Same (reader_state reader.old) (reader_state reader.new) }
    ensures reads { ReadsValue bits_form (IsValueOf bits_contents) tag
        (reader_state reader.old) result bits.old bits.new (reader_state reader.new) }
{
    let octets = match read_octets(reader, tag) {
        Ok(octets) => octets,
        Err(error) => return error,
    };
    if !BitStringGrammar::matches_grammar(octets) {
        return refuse_value(reader, tag);
    }
    *bits = bits_of(octets);
    DerError::NONE
}

// The bits of these contents.
#[inline(always)]
fn bits_of(octets: &[u8]) -> DerBits<'_>
    requires { bits_form octets.now ≡ true }
    ensures { bits_contents result ≡ octets.now }
{
    match octets {
        [unused, octets @ ..] => DerBits {
            octets,
            unused: *unused,
        },
        [] => DerBits::EMPTY,
    }
}
