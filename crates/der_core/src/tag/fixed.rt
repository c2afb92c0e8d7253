//! Types with tags.
ghost use Rattle.std.specs.Prelude.{◌≡◌, Bool};
ghost use Rattle.der_base.specs.Tag.{label};
ghost use Rattle.der_base.specs.declared.tag.Tag.{Tag as ATag};

use der_base::Tag;

/// Types whose values all have the same tag.
///
/// Ghost member (for proofs only): `tag_is` is that tag.
pub trait FixedTag {
    ghost tag_is: { ATag };

    /// The tag of every value of the type.
    const TAG: Tag;

    /// Returns `Self::TAG`, the tag of every value. Generic code calls this function, because it
    /// cannot name the constant in a contract.
    ///
    /// The implementor must ensure that the result is `Self::TAG`.
    fn fixed_tag() -> Tag
        ensures { result ≡ tag_is };
}

/// A boxed value has the tag of the value that it holds.
impl<T: FixedTag> FixedTag for Box<T> {
    ghost tag_is = { T.tag_is };

    const TAG: Tag = T::TAG;

    fn fixed_tag() -> Tag {
        T::fixed_tag()
    }
}

/// Types whose values each have a tag.
///
/// Ghost member (for proofs only): `tag_of` is the tag of a value.
pub trait Tagged {
    ghost tag_of: { Self → ATag };

    /// The tag with which this value is encoded.
    fn tag(&self) -> Tag
        ensures { result ≡ tag_of self.now };
}

impl<T: FixedTag> Tagged for T {
    ghost tag_of = { λ _. T.tag_is };

    fn tag(&self) -> Tag {
        T::fixed_tag()
    }
}

/// Types whose values all have tags with the constructed bit, or all have tags without it.
///
/// Ghost member (for proofs only): `constructed` says whether the tags of the values have the
/// constructed bit.
pub trait IsConstructed {
    ghost constructed: { Bool };

    /// Whether the tags of the type's values have the constructed bit.
    const CONSTRUCTED: bool;

    /// Returns `Self::CONSTRUCTED`: whether the tags of the type's values have the constructed bit.
    /// Generic code calls this function, because it cannot name the constant in a contract.
    ///
    /// The implementor must ensure that the result is `Self::CONSTRUCTED`.
    fn has_constructed_bit() -> bool
        ensures { result ≡ constructed };
}

impl<T: FixedTag> IsConstructed for T {
    ghost constructed = { (label T.tag_is).constructed };

    const CONSTRUCTED: bool = Tag::is_constructed(T::TAG);

    fn has_constructed_bit() -> bool {
        T::fixed_tag().is_constructed()
    }
}
