//! String types whose contents are characters in UTF-8.
ghost use Rattle.std.specs.Prelude.{◌≡◌, ℕ, true, List};
ghost use Rattle.std.specs.Str.{IsUtf8};
ghost use Rattle.der_asn1.specs.AsciiLemmas.{ia5_is_text, numeric_is_text, printable_is_text, visible_is_text};
ghost use Rattle.der_asn1.specs.AsciiLemmas.{utf8_is_text};

use crate::contents::checked::Checked;
use crate::contents::grammar::ContentsGrammar;
use crate::strings::ia5_string::Ia5StringGrammar;
use crate::strings::numeric_string::NumericStringGrammar;
use crate::strings::printable_string::PrintableStringGrammar;
use crate::strings::utf8_string::Utf8StringGrammar;
use crate::strings::visible_string::VisibleStringGrammar;

/// Grammars of string types whose contents octets are characters in UTF-8: UTF8String, and the
/// string types that have ASCII characters only.
///
/// Ghost member (for proofs only): `is_text` proves that valid contents are characters in UTF-8.
pub trait TextGrammar: ContentsGrammar {
    ghost is_text: { (octets : List ℕ) → Self.ContentsGrammar.grammar octets ≡ true
        → IsUtf8 octets };
}

impl<'a, F: TextGrammar> Checked<'a, F> {
    /// The contents, as a `str`.
    pub fn as_str(&self) -> &'a str
        ensures { result.now ≡ self.now.octets.now }
    {
        match std::str::from_utf8(self.octets()) {
            Ok(text) => text,
            Err(_) => unreachable!(),
        }
    }
}

impl TextGrammar for Utf8StringGrammar {
    ghost is_text = { utf8_is_text };
}

impl TextGrammar for Ia5StringGrammar {
    ghost is_text = { ia5_is_text };
}

impl TextGrammar for NumericStringGrammar {
    ghost is_text = { numeric_is_text };
}

impl TextGrammar for PrintableStringGrammar {
    ghost is_text = { printable_is_text };
}

impl TextGrammar for VisibleStringGrammar {
    ghost is_text = { visible_is_text };
}
