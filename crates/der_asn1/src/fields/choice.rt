//! Types whose values a reader recognizes by the next tag.
ghost use Rattle.std.specs.Prelude.{◌↔◌, ℕ, List, IsTrue};
ghost use Rattle.der.specs.Prelude.{Tag as ATag, EncodingRules as Rules};
ghost use Rattle.der_asn1.specs.Follow.{TagIn, this_tag, any_tag};
ghost use Rattle.der_asn1.specs.Begins.{element_begins, any_element_begins};

use crate::elements::any::AnyRef;
use der::{Decode, DecodeValue, FixedTag, Lends, Tag};

/// Types whose values are recognized by their tag: from the next tag a reader decides whether a
/// value of the type comes next.
///
/// Ghost member (for proofs only): `chooses` says with which tags a value may begin.
pub trait Choice {
    ghost chooses: { ATag → Type 0 };

    /// Whether a value of this type may begin with the tag `tag`.
    fn can_decode(tag: Tag) -> bool
        ensures { IsTrue result ↔ chooses tag };
}

/// Types that a reader `R` can decode, and whose values are recognized by the next tag (see
/// [`Choice`]).
///
/// Ghost member (for proofs only): `begins` proves that every value begins with one of the tags of
/// the type.
pub trait DecodeChoice<R: Lends>: Decode<R> + Choice {
    // A value begins with a tag that `chooses` accepts.
    ghost begins: { (v : Self) (rules : Rules) (octets : List ℕ) (m : ℕ)
        → Self.is_next v rules octets m → TagIn Self.chooses rules octets };
}

impl<T: FixedTag> Choice for T {
    ghost chooses = { this_tag T.tag_is };

    #[inline(always)]
    fn can_decode(tag: Tag) -> bool {
        tag == T::fixed_tag()
    }
}

impl<R: Lends, T: DecodeValue<R> + FixedTag> DecodeChoice<R> for T {
    ghost begins = { λ v rules octets m e. element_begins e };
}

impl<'a> Choice for AnyRef<'a> {
    ghost chooses = { any_tag };

    #[inline(always)]
    fn can_decode(_tag: Tag) -> bool
        ensures { IsTrue result ↔ any_tag _tag }
    {
        true
    }
}

impl<'a, R: Lends<Borrowed = &'a [u8]>> DecodeChoice<R> for AnyRef<'a> {
    ghost begins = { λ v rules octets m e. any_element_begins e };
}
