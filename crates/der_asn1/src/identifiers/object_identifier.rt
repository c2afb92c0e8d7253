//! OBJECT IDENTIFIER.
ghost use Rattle.std.specs.Prelude.{◌<◌};
ghost use Rattle.std.proofs.Common.{arith};
ghost use Rattle.der.specs.Prelude.{ObjectIdentifier as OidTag};
ghost use Rattle.der_asn1.specs.Forms.{oid_form};

use crate::contents::checked::Checked;
use crate::contents::grammar::ContentsGrammar;
use der::Tag;

/// Describes the contents of an OBJECT IDENTIFIER: one or more subidentifiers. No subidentifier
/// begins with octet `0x80` (X.690 8.19.2, 8.19.3).
pub struct ObjectIdentifierGrammar;

/// An OBJECT IDENTIFIER borrowed from the input.
pub type ObjectIdentifierRef<'a> = Checked<'a, ObjectIdentifierGrammar>;

impl ContentsGrammar for ObjectIdentifierGrammar {
    ghost tag_is = { OidTag };

    const TAG: Tag = Tag::ObjectIdentifier;

    #[inline(always)]
    fn fixed_tag() -> Tag {
        Self::TAG
    }

    ghost grammar = { oid_form };

    #[inline(always)]
    fn matches_grammar(octets: &[u8]) -> bool {
        // the types of extensions and of attributes of names have three octets below 0x80, which are
        // tested without a loop
        if let [first, second, third] = octets {
            if *first < 0x80 && *second < 0x80 && *third < 0x80 {
                return true;
            }
        }
        let mut starts = true;
        for octet in octets {
            if starts && *octet == 0x80 {
                return false;
            }
            starts = *octet < 0x80;
        }
        starts && !octets.is_empty()
    }

    ghost numbered = { Prim.omega arith };
}
