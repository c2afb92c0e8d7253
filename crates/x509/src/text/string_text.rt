//! The text of a string of any type.
ghost use Rattle.std.specs.Prelude.{◌≡◌, IfNone, IfSome, Some};
ghost use Rattle.std.specs.Str.{IsAscii, is_utf8};
ghost use Rattle.der_asn1.specs.Alphabets.{bmp_form};
ghost use Rattle.x509.specs.Text.{bmp_text, found_text, latin1_text, string_text, text_if};
ghost use Rattle.x509.specs.Text.{IsTextOfOther, text_octets};

use super::bmp::write_bmp;
use super::latin1::Latin1;
use crate::asn1::AttributeTypeAndValue;
use der::Tag;
use der_asn1::{
    AnyRef, BmpStringRef, ContentsGrammar, Ia5StringGrammar, NumericStringGrammar,
    PrintableStringGrammar, TeletexStringGrammar, Utf8StringRef, VisibleStringGrammar,
};
use std::fmt;

/// The characters of a string, in one of three encodings.
#[derive(Clone, Copy, Drop)]
pub enum Text<'a> {
    /// Characters in UTF-8.
    Utf8(Utf8StringRef<'a>),
    /// Characters of one octet each, in ISO 8859-1. Octets below 128 are ASCII characters.
    Latin1(Latin1<'a>),
    /// Characters of two octets each: the first octet is the more significant.
    Bmp(BmpStringRef<'a>),
}

impl<'a> Text<'a> {
    /// The characters of `value`, if it is a string with valid contents; otherwise `None`. A string
    /// is a UTF8String, NumericString, PrintableString, TeletexString, IA5String, VisibleString or
    /// BMPString. A TeletexString is read as ISO 8859-1, as most software does, although the
    /// character sets of a TeletexString differ from it (X.680 41).
    pub fn of(value: &AnyRef<'a>) -> Option<Self>
        ensures { found_text result ≡ string_text value.now.tag value.now.contents.now }
    {
        let octets = value.contents;
        match value.tag {
            Tag::Utf8String => utf8(octets),
            Tag::NumericString => latin1::<NumericStringGrammar>(octets),
            Tag::PrintableString => latin1::<PrintableStringGrammar>(octets),
            Tag::TeletexString => latin1::<TeletexStringGrammar>(octets),
            Tag::Ia5String => latin1::<Ia5StringGrammar>(octets),
            Tag::VisibleString => latin1::<VisibleStringGrammar>(octets),
            Tag::BmpString => bmp(octets),
            _ => None,
        }
    }

    /// The characters as a `str`, if they are [`Text::Utf8`], or if they are [`Text::Latin1`] and
    /// all of them are ASCII characters. Otherwise `None`; to get the characters then, print the
    /// `Text`.
    pub fn as_str(&self) -> Option<&'a str>
        ensures some { IfSome result (λ t. t.now ≡ text_octets self.now) }
        ensures none { IfNone result (IsTextOfOther self.now) }
    {
        match self {
            Text::Utf8(string) => Some(string.as_str()),
            Text::Latin1(string) => ascii(string.octets),
            Text::Bmp(_) => None,
        }
    }
}

impl<'a> AttributeTypeAndValue<'a> {
    /// The characters of the value, as [`Text::of`] reads them; `None` if [`Text::of`] does not
    /// read the value as a string.
    pub fn text(&self) -> Option<Text<'a>>
        ensures { found_text result
            ≡ string_text self.now.value.tag self.now.value.contents.now }
    {
        Text::of(&self.value)
    }
}

/// Prints the characters.
impl<'a> fmt::Display for Text<'a> {
    ghost output = { λ v. Some (text_octets v) };

    fn fmt<W: fmt::Write>(&self, f: &mut fmt::Formatter<W>) -> fmt::Result {
        match self {
            Text::Utf8(string) => f.write_str(string.as_str()),
            Text::Latin1(string) => string.fmt(f),
            Text::Bmp(string) => write_bmp(string, f),
        }
    }
}

fn utf8(octets: &[u8]) -> Option<Text<'_>>
    ensures { found_text result ≡ text_if (is_utf8 octets.now) octets.now }
{
    match Utf8StringRef::new(octets) {
        Some(string) => Some(Text::Utf8(string)),
        None => None,
    }
}

fn bmp(octets: &[u8]) -> Option<Text<'_>>
    ensures { found_text result ≡ text_if (bmp_form octets.now) (bmp_text octets.now) }
{
    match BmpStringRef::new(octets) {
        Some(string) => Some(Text::Bmp(string)),
        None => None,
    }
}

fn latin1<F: ContentsGrammar>(octets: &[u8]) -> Option<Text<'_>>
    ensures { found_text result
        ≡ text_if (F.grammar octets.now) (latin1_text octets.now) }
{
    if F::matches_grammar(octets) {
        Some(Text::Latin1(Latin1 { octets }))
    } else {
        None
    }
}

// The octets as a `str`, if they are all of ASCII.
fn ascii(octets: &[u8]) -> Option<&str>
    ensures some { IfSome result (λ t. t.now ≡ latin1_text octets.now) }
    ensures none { IfNone result (IsAscii octets.now → ⊥) }
{
    if !octets.is_ascii() {
        return None;
    }
    match std::str::from_utf8(octets) {
        Ok(text) => Some(text),
        Err(_) => unreachable!(),
    }
}
