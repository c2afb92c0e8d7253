//! Writing a BIT STRING, for C.
ghost use Rattle.std.specs.Prelude.{◌≡◌, ◌∷◌, ◌+◌, ◌<◌, ◌^◌, length};
ghost use Rattle.der_asn1.specs.Forms.{bits_form};
ghost use Rattle.der_c_core.specs.CWriter.{KeepsOpen, writer_state};
ghost use Rattle.der_c_values.specs.WriteCalls.{WritesBits, WritesBitsElement};

use crate::refusal::OVERFLOW;
use crate::write_refusal::{refuse_no_value, refuse_write};
use der_asn1::{BitStringGrammar, ContentsGrammar};
use der_c_core::{DerError, DerWriter, der_write, der_write_header};

/// Writes a BIT STRING (X.690 8.6, 11.2) with the tag word `tag` (see `DerElement::tag`). `octets`
/// hold the bits. The low `unused` bits of the last octet are not part of the string, and must be
/// zero.
///
/// After an error, `writer` has failed. A call that fails may have written the header and the first
/// octet of the contents, which remain. Fails with:
///
/// - `Value` with the tag `tag`, without a position, if `unused` is more than 7, if `unused` is not
///   0 and there are no `octets`, or if an unused bit is not zero;
/// - `Overflow` without a position, if there are more than 4294967294 `octets`;
/// - the errors of `der_write_header` and `der_write`.
#[inline(always)]
pub fn der_write_bit_string(
    writer: &mut DerWriter<'_>,
    tag: u64,
    octets: &[u8],
    unused: u8,
) -> DerError
    ensures writes { WritesBits unused octets.now tag (writer_state writer.old) result
        (writer_state writer.new) }
    ensures keeps_open { KeepsOpen writer.old writer.new }
{
    if !are_bits(unused, octets) {
        return refuse_no_value(writer, tag);
    }
    if octets.len() >= u32::MAX as usize {
        return refuse_write(writer, OVERFLOW);
    }
    write_bits(writer, tag, octets, unused)
}

// Writes the element.
#[inline(always)]
fn write_bits(writer: &mut DerWriter<'_>, tag: u64, octets: &[u8], unused: u8) -> DerError
    requires { 1 + length octets.now < 2 ^ 32 }
    ensures writes { WritesBitsElement tag unused octets.now (writer_state writer.old) result
        (writer_state writer.new) }
    ensures keeps_open { KeepsOpen writer.old writer.new }
{
    let header = der_write_header(writer, tag, 1 + octets.len() as u32);
    if header.kind != 0 {
        return header;
    }
    let first = der_write(writer, &[unused]);
    if first.kind != 0 {
        return first;
    }
    der_write(writer, octets)
}

// Whether these are the contents of a BIT STRING, which its last octet decides.
#[inline(always)]
fn are_bits(unused: u8, octets: &[u8]) -> bool
    ensures { result ≡ bits_form (unused ∷ octets.now) }
{
    match octets {
        [] => BitStringGrammar::matches_grammar(&[unused]),
        [.., last] => BitStringGrammar::matches_grammar(&[unused, *last]),
    }
}
