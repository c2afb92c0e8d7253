//! Peeking at the next tag of a reader.
ghost use Rattle.std.specs.Prelude.{◌≡◌, ◌↔◌, true, IsTrue};
ghost use Rattle.der_base.specs.Class.{class_number};
ghost use Rattle.der_base.specs.HeaderGrammar.{IdentifierNext, TagNext};
ghost use Rattle.der_base.specs.Tag.{label, IdentifierFault};
ghost use Rattle.der_core.specs.Decode.{Decodes, Peeks, MatchAnswer};
ghost use Rattle.der_core.specs.Outcome.{IsBinding};

use crate::reader::{Reader, ReaderExt};
use crate::tag::decode_with_constructed_bit;
use der_base::{Class, Error, Tag, TagNumber};

/// Functions of the type `Tag` that take a reader. Only `Tag` implements this trait.
pub trait TagPeek: Sized {
    /// The next tag, decoded without moving the reader.
    ///
    /// # Errors
    ///
    /// `Failed`, `Overflow`, `Incomplete`, `TagUnknown` and `TagNumberInvalid`, as by
    /// [`Tag::decode`](crate::Decode::decode) and with the same positions; the reader is unchanged.
    fn peek<R: Reader>(reader: &R) -> Result<Self, Error>;

    /// Whether the next tag has the given class and number. If no octets are left, returns
    /// `Ok(false)`, even on a failed reader. The reader does not move.
    ///
    /// # Errors
    ///
    /// `Failed`, `Overflow`, `Incomplete`, `TagUnknown` and `TagNumberInvalid`, as by
    /// [`Tag::decode`](crate::Decode::decode) and with the same positions; the reader is unchanged.
    fn peek_matches<R: Reader>(
        reader: &mut R,
        expected_class: Class,
        expected_tag_number: TagNumber,
    ) -> Result<bool, Error>;

    /// Decodes a tag (X.690 8.1.2). Returns the tag, and whether its identifier has the constructed
    /// bit.
    ///
    /// # Errors
    ///
    /// `Failed`, `Overflow`, `Incomplete`, `TagUnknown` and `TagNumberInvalid`, as by
    /// [`Tag::decode`](crate::Decode::decode).
    fn decode_with_constructed_bit<R: Reader>(reader: &mut R) -> Result<(Self, bool), Error>;
}

impl TagPeek for Tag {
    fn peek<R: Reader>(reader: &R) -> Result<Self, Error>
        ensures { Peeks TagNext IdentifierFault R.reliable (R.state reader.now) result }
    {
        reader.peek_tag()
    }

    fn peek_matches<R: Reader>(
        reader: &mut R,
        expected_class: Class,
        expected_tag_number: TagNumber,
    ) -> Result<bool, Error>
        ensures stays { R.state reader.new ≡ R.state reader.old }
        ensures exact { IsBinding R.reliable result
            → MatchAnswer (class_number expected_class) expected_tag_number.0 (R.state reader.old)
            result }
    {
        if reader.is_finished() {
            return Ok(false);
        }
        let tag = reader.peek_tag()?;
        Ok(has(tag, expected_class, expected_tag_number))
    }

    fn decode_with_constructed_bit<R: Reader>(reader: &mut R) -> Result<(Self, bool), Error>
        ensures { Decodes IdentifierNext IdentifierFault R.reliable (R.state reader.old) result
            (R.state reader.new) }
    {
        decode_with_constructed_bit(reader)
    }
}

// Whether a tag has this class and number.
fn has(tag: Tag, class: Class, number: TagNumber) -> bool
    ensures { IsTrue result ↔ (((label tag).class ≡ class_number class)
        × ((label tag).number ≡ number.0)) }
{
    tag.class() == class && tag.number() == number
}
