//! Making OBJECT IDENTIFIERs from dotted notation, for C.
ghost use Rattle.std.specs.Prelude.{IfOk, IfErr};
ghost use Rattle.der_c_values.specs.OidContents.{held_octets};
ghost use Rattle.der_c_values.specs.OidFromText.{EncodesText, IsEncoded, IsNotEncoded};

use crate::dotted_arc::DottedArc;
use crate::oid_contents::OidContents;
use crate::refusal::{MALFORMED, OVERFLOW, OVERLENGTH};
use der_c_core::DerError;

/// Converts an OBJECT IDENTIFIER from dotted notation, such as `2.5.29.17` in `text`. Writes the
/// contents octets (X.690 8.19) to the start of `oid`, and sets `count` to the number of octets
/// written. `text` is read without a final zero octet.
///
/// A call that fails leaves `oid` and `count` unchanged. Fails without a position with:
///
/// - `OidMalformed`, if `text` is not the dotted notation of an OBJECT IDENTIFIER. This includes a
///   leading zero in a number, a first number above 2, and a second number above 39 if the first is
///   0 or 1;
/// - `Overflow`, if a subidentifier does not fit in 128 bits, or if there are more than 256
///   contents octets;
/// - `Overlength`, if `oid` is too short.
pub fn der_oid_from_text(text: &[u8], oid: &mut [u8], count: &mut usize) -> DerError
    ensures { EncodesText text.now result oid.old oid.new count.old count.new }
{
    let contents = match contents_of(text) {
        Ok(contents) => contents,
        Err(error) => return error,
    };
    let octets = contents.as_slice();
    if octets.len() > oid.len() {
        return OVERLENGTH;
    }
    oid[..octets.len()].copy_from_slice(octets);
    *count = octets.len();
    DerError::NONE
}

/// The contents octets of the OBJECT IDENTIFIER whose dotted notation is `text`. Fails with
/// `OidMalformed` and `Overflow` in the same cases as [`der_oid_from_text`].
pub(crate) fn contents_of(text: &[u8]) -> Result<OidContents, DerError>
    ensures ok { IfOk result (λ c. IsEncoded text.now (held_octets c)) }
    ensures refused { IfErr result (λ e. IsNotEncoded text.now e) }
{
    let mut contents = OidContents::new();
    let mut at = 0;
    'arcs: while at <= text.len() {
        let Some(arc) = DottedArc::read(text, at) else {
            return Err(MALFORMED);
        };
        if !contents.push(arc.number) {
            return Err(MALFORMED);
        }
        at = arc.end + 1;
    }
    if !contents.is_whole() {
        return Err(MALFORMED);
    }
    if !contents.fits() {
        return Err(OVERFLOW);
    }
    Ok(contents)
}
