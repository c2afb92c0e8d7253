//! Tag numbers.
ghost use Rattle.std.specs.Prelude.{◌≡◌, Some};

use crate::tag::Tag;
use std::fmt;

/// The number of a tag. Universal tags have numbers up to 30; tags of the other classes have any
/// 32-bit number (X.690 8.1.2.2, 8.1.2.4).
#[derive(Clone, Copy, Debug, PartialEq, Eq, PartialOrd, Ord, Hash)]
pub struct TagNumber(pub u32);

impl TagNumber {
    ghost use Rattle.der_base.specs.declared.tag.Tag.{Tag};

    /// The tag number with the value `value`.
    pub const fn new(value: u32) -> Self
        ensures { result.0 ≡ value }
    {
        TagNumber(value)
    }

    /// The tag number as a `u32`.
    pub const fn value(self) -> u32
        ensures { result ≡ self.0 }
    {
        self.0
    }

    /// The tag of class APPLICATION with this number. `constructed` says whether the contents of an
    /// element with this tag are constructed.
    pub const fn application(self, constructed: bool) -> Tag
        ensures { result ≡ Tag.Application constructed self }
    {
        Tag::Application {
            constructed,
            number: self,
        }
    }

    /// The tag of class CONTEXT-SPECIFIC with this number. `constructed` says whether the contents
    /// of an element with this tag are constructed.
    pub const fn context_specific(self, constructed: bool) -> Tag
        ensures { result ≡ Tag.ContextSpecific constructed self }
    {
        Tag::ContextSpecific {
            constructed,
            number: self,
        }
    }

    /// The tag of class PRIVATE with this number. `constructed` says whether the contents of an
    /// element with this tag are constructed.
    pub const fn private(self, constructed: bool) -> Tag
        ensures { result ≡ Tag.Private constructed self }
    {
        Tag::Private {
            constructed,
            number: self,
        }
    }
}

/// Converts a `u32` to the tag number with that value.
impl From<u32> for TagNumber {
    ghost from_gives = { λ n t. t.0 ≡ n };

    fn from(value: u32) -> Self {
        TagNumber::new(value)
    }
}

/// Converts a tag number to its value.
impl From<TagNumber> for u32 {
    ghost from_gives = { λ t n. n ≡ t.0 };

    fn from(number: TagNumber) -> Self {
        number.0
    }
}

/// Prints the tag number in decimal.
impl fmt::Display for TagNumber {
    ghost use Rattle.std.specs.Fmt.{decimal};

    ghost output = { λ n. Some (decimal n.0) };

    fn fmt<W: fmt::Write>(&self, f: &mut fmt::Formatter<W>) -> fmt::Result {
        self.value().fmt(f)
    }
}
