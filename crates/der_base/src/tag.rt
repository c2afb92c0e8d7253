//! The tags of elements (X.690 8.1.2), and their classes, numbers and tagging modes.
ghost use Rattle.std.specs.Prelude.{◌≡◌, ◌≢◌, ◌≤◌, ◌↔◌, length, IsTrue, Bool, true, false, Some, Ok, Err};
ghost use Rattle.der_base.specs.Text.{form_text};

pub mod class;
pub mod mode;
pub mod number;

use crate::error::{ErrorKind, Result};
pub use class::{CLASS_APPLICATION, CLASS_CONTEXT_SPECIFIC, CLASS_PRIVATE, CLASS_UNIVERSAL, Class};
pub use mode::TagMode;
pub use number::TagNumber;
use std::fmt;

/// The tag of an element: a class, whether the contents are constructed, and a number (X.690
/// 8.1.2). The derived order compares two tags by their variants, in the order in which the
/// variants are declared. The derived order compares tags of the same variant by `constructed`,
/// where `false` is less than `true`. If `constructed` is also equal, `number` decides. The derived
/// order is not the lexicographic order of the identifier octets.
///
/// Of the universal numbers (X.680 8.4), 7 (ObjectDescriptor), 8 (EXTERNAL), 11 (EMBEDDED PDV), 14
/// (TIME), 15, 25 (GraphicString), 28 (UniversalString), 29 (CHARACTER STRING) and all from 31 on
/// have no variant. An element with such a tag cannot be read, not even as an element of any type.
#[derive(Clone, Copy, PartialEq, Eq, PartialOrd, Ord, Hash)]
pub enum Tag {
    /// `BOOLEAN`, tag number 1.
    Boolean,
    /// `INTEGER`, tag number 2.
    Integer,
    /// `BIT STRING`, tag number 3.
    BitString,
    /// `OCTET STRING`, tag number 4.
    OctetString,
    /// `NULL`, tag number 5.
    Null,
    /// `OBJECT IDENTIFIER`, tag number 6.
    ObjectIdentifier,
    /// `REAL`, tag number 9.
    Real,
    /// `ENUMERATED`, tag number 10.
    Enumerated,
    /// `UTF8String`, tag number 12.
    Utf8String,
    /// `RELATIVE-OID`, tag number 13; printed as `RELATIVE OID`.
    RelativeOid,
    /// `SEQUENCE` and `SEQUENCE OF`, tag number 16, constructed.
    Sequence,
    /// `SET` and `SET OF`, tag number 17, constructed.
    Set,
    /// `NumericString`, tag number 18.
    NumericString,
    /// `PrintableString`, tag number 19.
    PrintableString,
    /// `TeletexString`, tag number 20.
    TeletexString,
    /// `VideotexString`, tag number 21.
    VideotexString,
    /// `IA5String`, tag number 22.
    Ia5String,
    /// `UTCTime`, tag number 23.
    UtcTime,
    /// `GeneralizedTime`, tag number 24.
    GeneralizedTime,
    /// `VisibleString`, tag number 26.
    VisibleString,
    /// `GeneralString`, tag number 27.
    GeneralString,
    /// `BMPString`, tag number 30.
    BmpString,
    /// A tag of class APPLICATION.
    Application {
        /// Whether the contents are constructed.
        constructed: bool,
        /// The tag number, up to 4294967295.
        number: TagNumber,
    },
    /// A tag of class CONTEXT-SPECIFIC: its meaning depends on the context.
    ContextSpecific {
        /// Whether the contents are constructed.
        constructed: bool,
        /// The tag number, up to 4294967295.
        number: TagNumber,
    },
    /// A tag of class PRIVATE.
    Private {
        /// Whether the contents are constructed.
        constructed: bool,
        /// The tag number, up to 4294967295.
        number: TagNumber,
    },
}

impl Tag {
    ghost use Rattle.der_base.specs.Tag.{label, tag_octets};
    ghost use Rattle.der_base.specs.Class.{class_number};
    ghost use Rattle.der_base.specs.Error.{unexpected_tag};

    /// The class of the tag. It is UNIVERSAL for every variant except `Application`,
    /// `ContextSpecific` and `Private`.
    pub const fn class(self) -> Class
        ensures { class_number result ≡ (label self).class }
    {
        match self {
            Tag::Application { .. } => Class::Application,
            Tag::ContextSpecific { .. } => Class::ContextSpecific,
            Tag::Private { .. } => Class::Private,
            _ => Class::Universal,
        }
    }

    /// The number of the tag. The variant of a universal tag determines the number. A tag of
    /// another class has it in the field `number`.
    #[inline(always)]
    pub const fn number(self) -> TagNumber
        ensures { result.0 ≡ (label self).number }
    {
        match self {
            Tag::Application { number, .. }
            | Tag::ContextSpecific { number, .. }
            | Tag::Private { number, .. } => number,
            _ => TagNumber(self.universal_number()),
        }
    }

    // The number of a universal tag. It is a separate function so that all its results are
    // constants and compile to a table; one match over all tags would compile to a jump.
    #[inline(always)]
    const fn universal_number(self) -> u32
        requires { (label self).class ≡ 0 }
        ensures { result ≡ (label self).number }
    {
        match self {
            Tag::Boolean => 1,
            Tag::Integer => 2,
            Tag::BitString => 3,
            Tag::OctetString => 4,
            Tag::Null => 5,
            Tag::ObjectIdentifier => 6,
            Tag::Real => 9,
            Tag::Enumerated => 10,
            Tag::Utf8String => 12,
            Tag::RelativeOid => 13,
            Tag::Sequence => 16,
            Tag::Set => 17,
            Tag::NumericString => 18,
            Tag::PrintableString => 19,
            Tag::TeletexString => 20,
            Tag::VideotexString => 21,
            Tag::Ia5String => 22,
            Tag::UtcTime => 23,
            Tag::GeneralizedTime => 24,
            Tag::VisibleString => 26,
            Tag::GeneralString => 27,
            // BMPString
            _ => 30,
        }
    }

    /// Whether the contents are constructed. The result is true for `Sequence` and `Set`, and false
    /// for the other universal tags. For a tag of another class, the result is the field
    /// `constructed`.
    pub const fn is_constructed(self) -> bool
        ensures { result ≡ (label self).constructed }
    {
        match self {
            Tag::Sequence | Tag::Set => true,
            Tag::Application { constructed, .. }
            | Tag::ContextSpecific { constructed, .. }
            | Tag::Private { constructed, .. } => constructed,
            _ => false,
        }
    }

    /// The number of identifier octets (X.690 8.1.2), 1 to 6. A tag number up to 30 takes one
    /// octet. A greater tag number takes one octet, and one more for each of its digits in base
    /// 128.
    pub const fn octet_count(self) -> u32
        ensures octets { result ≡ length (tag_octets self) }
        ensures most { result ≤ 6 }
    {
        let number = self.number().0;
        if number < 31 {
            1
        } else if number < 1 << 7 {
            2
        } else if number < 1 << 14 {
            3
        } else if number < 1 << 21 {
            4
        } else if number < 1 << 28 {
            5
        } else {
            6
        }
    }

    /// Whether the class is APPLICATION.
    pub const fn is_application(self) -> bool
        ensures { IsTrue result ↔ ((label self).class ≡ class_number Class.Application) }
    {
        matches!(self, Tag::Application { .. })
    }

    /// Whether the class is CONTEXT-SPECIFIC.
    pub const fn is_context_specific(self) -> bool
        ensures { IsTrue result ↔ ((label self).class ≡ class_number Class.ContextSpecific) }
    {
        matches!(self, Tag::ContextSpecific { .. })
    }

    /// Whether the class is PRIVATE.
    pub const fn is_private(self) -> bool
        ensures { IsTrue result ↔ ((label self).class ≡ class_number Class.Private) }
    {
        matches!(self, Tag::Private { .. })
    }

    /// Whether the class is UNIVERSAL.
    pub const fn is_universal(self) -> bool
        ensures { IsTrue result ↔ ((label self).class ≡ class_number Class.Universal) }
    {
        matches!(self.class(), Class::Universal)
    }

    /// Returns this tag if it equals `expected`.
    ///
    /// # Errors
    ///
    /// - `TagUnexpected` without a position, if this tag differs from `expected`. The error's field
    ///   `expected` is the tag `expected`, and the error's field `actual` is this tag.
    pub fn assert_eq(self, expected: Tag) -> Result<Tag>
        ensures expected_tag { self ≡ expected → result ≡ Ok self }
        ensures other_tag { self ≢ expected → result ≡ Err (unexpected_tag expected self) }
    {
        if self == expected {
            Ok(self)
        } else {
            Err(self.unexpected_error(Some(expected)).to_error())
        }
    }

    /// The error kind `Length` with this tag. It reports that the length of an element with this
    /// tag is not encoded as required, or differs from the number of contents octets.
    pub const fn length_error(self) -> ErrorKind
        ensures { result ≡ ErrorKind.Length self }
    {
        ErrorKind::Length { tag: self }
    }

    /// The error kind `Noncanonical` with this tag. It reports that a value with this tag is not
    /// encoded canonically.
    pub const fn non_canonical_error(self) -> ErrorKind
        ensures { result ≡ ErrorKind.Noncanonical self }
    {
        ErrorKind::Noncanonical { tag: self }
    }

    /// The error kind `TagUnexpected` with this tag as the tag that was found. If `expected` is
    /// `Some(tag)`, then `tag` was expected. If `expected` is `None`, this tag is not allowed where
    /// it occurs.
    pub const fn unexpected_error(self, expected: Option<Self>) -> ErrorKind
        ensures { result ≡ ErrorKind.TagUnexpected expected self }
    {
        ErrorKind::TagUnexpected {
            expected,
            actual: self,
        }
    }

    /// The error kind `Value` with this tag. It reports that a value with this tag is malformed.
    pub const fn value_error(self) -> ErrorKind
        ensures { result ≡ ErrorKind.Value self }
    {
        ErrorKind::Value { tag: self }
    }
}

/// Prints a universal tag as its name, such as `SEQUENCE`. Prints a tag of another class as its
/// class, number and form (primitive or constructed), such as `PRIVATE [5] (primitive)`.
impl fmt::Display for Tag {
    ghost use Rattle.der_base.specs.Text.{tag_text};

    ghost output = { λ t. Some (tag_text t) };

    fn fmt<W: fmt::Write>(&self, f: &mut fmt::Formatter<W>) -> fmt::Result {
        match self {
            Tag::Boolean => f.write_str("BOOLEAN"),
            Tag::Integer => f.write_str("INTEGER"),
            Tag::BitString => f.write_str("BIT STRING"),
            Tag::OctetString => f.write_str("OCTET STRING"),
            Tag::Null => f.write_str("NULL"),
            Tag::ObjectIdentifier => f.write_str("OBJECT IDENTIFIER"),
            Tag::Real => f.write_str("REAL"),
            Tag::Enumerated => f.write_str("ENUMERATED"),
            Tag::Utf8String => f.write_str("UTF8String"),
            Tag::RelativeOid => f.write_str("RELATIVE OID"),
            Tag::Sequence => f.write_str("SEQUENCE"),
            Tag::Set => f.write_str("SET"),
            Tag::NumericString => f.write_str("NumericString"),
            Tag::PrintableString => f.write_str("PrintableString"),
            Tag::TeletexString => f.write_str("TeletexString"),
            Tag::VideotexString => f.write_str("VideotexString"),
            Tag::Ia5String => f.write_str("IA5String"),
            Tag::UtcTime => f.write_str("UTCTime"),
            Tag::GeneralizedTime => f.write_str("GeneralizedTime"),
            Tag::VisibleString => f.write_str("VisibleString"),
            Tag::GeneralString => f.write_str("GeneralString"),
            Tag::BmpString => f.write_str("BMPString"),
            Tag::Application {
                constructed,
                number,
            } => write!(f, "APPLICATION [{number}] ({})", form(*constructed)),
            Tag::ContextSpecific {
                constructed,
                number,
            } => write!(f, "CONTEXT-SPECIFIC [{number}] ({})", form(*constructed)),
            Tag::Private {
                constructed,
                number,
            } => write!(f, "PRIVATE [{number}] ({})", form(*constructed)),
        }
    }
}

// The form of the contents (X.690 8.1.2.5).
fn form(constructed: bool) -> &'static str
    ensures { result.now ≡ form_text constructed }
{
    if constructed {
        "constructed"
    } else {
        "primitive"
    }
}

/// Prints `Tag`, then in parentheses the tag number in hexadecimal and the tag as `Display` prints
/// it, such as `Tag(0x10: SEQUENCE)`.
impl fmt::Debug for Tag {
    ghost use Rattle.der_base.specs.Text.{tag_debug};

    ghost debug_output = { λ t. Some (tag_debug t) };

    fn fmt<W: fmt::Write>(&self, f: &mut fmt::Formatter<W>) -> fmt::Result {
        let number = self.number().0;
        write!(f, "Tag(0x{number:02x}: {self})")
    }
}
