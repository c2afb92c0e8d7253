//! The text of a DirectoryString.
ghost use Rattle.std.specs.Prelude.{◌≡◌, Some};
ghost use Rattle.x509.specs.Text.{latin1_text, text_octets};
ghost use Rattle.x509.specs.DirectoryText.{directory_text};

use super::latin1::Latin1;
use super::string_text::Text;
use crate::asn1::DirectoryString;
use std::fmt;

impl<'a> DirectoryString<'a> {
    /// The characters of the string. A TeletexString is read as ISO 8859-1 (see [`Text::of`]).
    pub fn text(&self) -> Text<'a>
        ensures { text_octets result ≡ directory_text self.now }
    {
        match self {
            DirectoryString::TeletexString(string) => latin1(string.octets()),
            DirectoryString::PrintableString(string) => latin1(string.octets()),
            DirectoryString::Utf8String(string) => Text::Utf8(*string),
            DirectoryString::BmpString(string) => Text::Bmp(*string),
        }
    }
}

/// Prints the characters.
impl<'a> fmt::Display for DirectoryString<'a> {
    ghost output = { λ v. Some (directory_text v) };

    fn fmt<W: fmt::Write>(&self, f: &mut fmt::Formatter<W>) -> fmt::Result {
        let text = self.text();
        text.fmt(f)
    }
}

// The text of octets that are the codes of characters.
fn latin1(octets: &[u8]) -> Text<'_>
    ensures { text_octets result ≡ latin1_text octets.now }
{
    Text::Latin1(Latin1 { octets })
}
