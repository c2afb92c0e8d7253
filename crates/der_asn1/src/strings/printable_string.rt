//! PrintableString.
ghost use Rattle.std.specs.Prelude.{◌≡◌};
ghost use Rattle.std.proofs.Common.{arith};
ghost use Rattle.der.specs.Prelude.{PrintableString as PrintableTag};
ghost use Rattle.der_asn1.specs.Forms.{printable_form, is_printable};

use crate::contents::checked::Checked;
use crate::contents::grammar::ContentsGrammar;
use der::Tag;

/// Describes the contents of a PrintableString: letters, digits, space, and `'()+,-./:=?` (X.680
/// 41.4).
pub struct PrintableStringGrammar;

/// A PrintableString borrowed from the input.
pub type PrintableStringRef<'a> = Checked<'a, PrintableStringGrammar>;

impl ContentsGrammar for PrintableStringGrammar {
    ghost tag_is = { PrintableTag };

    const TAG: Tag = Tag::PrintableString;

    fn fixed_tag() -> Tag {
        Self::TAG
    }

    ghost grammar = { printable_form };

    fn matches_grammar(octets: &[u8]) -> bool {
        for octet in octets {
            if !is_printable_octet(*octet) {
                return false;
            }
        }
        true
    }

    ghost numbered = { Prim.omega arith };
}

// Whether the octet is a character of a PrintableString.
fn is_printable_octet(octet: u8) -> bool
    ensures { result ≡ is_printable octet }
{
    match octet {
        b'A'..=b'Z' | b'a'..=b'z' | b'0'..=b'9' => true,
        b' ' | b'\'' | b'(' | b')' | b'+' | b',' | b'-' | b'.' | b'/' | b':' | b'=' | b'?' => true,
        _ => false,
    }
}
