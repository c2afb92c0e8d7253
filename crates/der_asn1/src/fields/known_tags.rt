//! The tags that a type with an extension mark knows.
ghost use Rattle.std.specs.Prelude.{◌≡◌, ℕ, List};
ghost use Rattle.der.specs.Tag.{label};
ghost use Rattle.der_asn1.specs.TagSets.{is_among};

use der::{Class, Tag};

/// The tags that a type with an extension mark knows. An element with another tag may belong to a
/// later version of the type. Tags are compared by class and number alone: it makes no difference
/// whether a tag is constructed.
///
/// Ghost member (for proofs only): `known` gives the classes and the numbers of the known tags.
pub trait KnownTags {
    ghost known: { List (ℕ × ℕ) };

    /// Whether `tag` has the class and the number of a known tag. An implementation calls
    /// [`is_among`].
    fn is_known(tag: Tag) -> bool
        ensures { result ≡ is_among known tag };
}

// The number of the class of a tag.
#[inline(always)]
fn class_of(tag: Tag) -> u8
    ensures { result ≡ (label tag).class }
{
    match tag.class() {
        Class::Universal => 0,
        Class::Application => 1,
        Class::ContextSpecific => 2,
        Class::Private => 3,
    }
}

/// Whether one of the pairs in `tags` has the class and the number of `tag`. The first member of a
/// pair is the class: 0 for UNIVERSAL, 1 for APPLICATION, 2 for context-specific, 3 for PRIVATE
/// (X.690 8.1.2.2). The second member is the number.
#[inline]
pub fn is_among(tags: &[(u8, u32)], tag: Tag) -> bool
    ensures { result ≡ is_among tags.now tag }
{
    match tags {
        [] => false,
        [first, rest @ ..] => {
            first.0 == class_of(tag) && first.1 == tag.number().value() || is_among(rest, tag)
        }
    }
}
