//! Names of certificates as text, for C.
//!
//! Written by tools/c_interface: change the crates that der_c uses instead.
ghost use Rattle.der_asn1.specs.SequenceOf.{IsListOf};
ghost use Rattle.hidden_characters.specs.Hidden.{is_hidden};
ghost use Rattle.std.specs.Char.{IsScalar};
ghost use Rattle.std.specs.Prelude.{length, slice_index, true, ◌<◌, ◌^◌, ◌≡◌, ◌≢◌, ◌⊎◌};

use der_asn1::Item;
use der_c_core::DerError;
use std::alloc::Global;
use x509::RelativeDistinguishedName;

/// Writes a distinguished name in the form of RFC 4514, such as `CN=example.org,O=Example,C=DE`.
/// The last RelativeDistinguishedName comes first. `name` are the contents octets of a Name, such
/// as the `subject` of a certificate that `der_certificate_read` has read.
///
/// The text and a final zero octet are written to the start of `text`. `count` is set to the number
/// of octets of the text, without the zero octet.
///
/// An attribute type without a short name in RFC 4514 or RFC 4519 is written as its OBJECT
/// IDENTIFIER. The value of an attribute of this type is written as `#` and the octets of its
/// encoding in hexadecimal, and so is any value that is not a string. The characters for which
/// `der_is_hidden` returns true, such as control characters, are written as a backslash and two
/// hexadecimal digits for each octet in UTF-8. So the text contains no zero octet.
///
/// A call that fails leaves `count` unchanged. Fails with:
///
/// - the error of the first RelativeDistinguishedName that cannot be decoded. Its position is
///   counted from the start of `name`, and `text` is unchanged;
/// - `Overlength` without a position, if `text` is too short.
#[unsafe(no_mangle)]
pub extern "C" fn der_name_text<'a>(
    alloc: Global,
    name: &'a [u8],
    text: &mut [u8],
    count: &mut usize,
) -> DerError
    ensures named { result.kind ≡ 0 →
        IsListOf ⟦<RelativeDistinguishedName<'a> as Item>⟧.item.valid
        ⟦<RelativeDistinguishedName<'a> as Item>⟧.item.octets name.now }
    ensures complete { length name.now < 2 ^ 32 →
        IsListOf ⟦<RelativeDistinguishedName<'a> as Item>⟧.item.valid
        ⟦<RelativeDistinguishedName<'a> as Item>⟧.item.octets name.now →
        (result.kind ≡ 0) ⊎ (result.kind ≡ 13) }
    ensures fits { result.kind ≡ 0 → count.new < length text.new }
    ensures ended { result.kind ≡ 0 → slice_index text.new count.new ≡ 0 }
    ensures same { result.kind ≢ 0 → count.new ≡ count.old }
    ensures unread { (IsListOf ⟦<RelativeDistinguishedName<'a> as Item>⟧.item.valid
        ⟦<RelativeDistinguishedName<'a> as Item>⟧.item.octets name.now → ⊥) →
        text.new ≡ text.old }
{
    der_c_x509::der_name_text(alloc, name, text, count)
}

/// Returns true if a reader of a text would not see `character` as it is: if it is a control
/// character, invisible, or turns the text around it. `der_name_text` escapes these characters. A
/// number that is not a character counts as hidden.
#[unsafe(no_mangle)]
pub extern "C" fn der_is_hidden(character: u32) -> bool
    ensures known { IsScalar character → result ≡ is_hidden character }
    ensures none { (IsScalar character → ⊥) → result ≡ true }
{
    der_c_x509::der_is_hidden(character)
}
