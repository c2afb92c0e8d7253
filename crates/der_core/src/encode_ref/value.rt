//! References that are encoded with the contents and the tag of the value that they refer to.
ghost use Rattle.std.specs.Prelude.{◌≡◌};

use crate::encode::{EncodeValue, WrittenValue};
use crate::tag::fixed::Tagged;
use crate::writer::Writer;
use der_base::{Error, Length, Tag};

/// A reference to a value, encoded with the contents and the tag of that value.
#[derive(Debug, Drop)]
pub struct EncodeValueRef<'a, T>(pub &'a T);

impl<'a, T> EncodeValueRef<'a, T> {
    /// The value that the reference refers to.
    pub fn as_ref(&self) -> &T
        ensures { result.now ≡ self.now.0.now }
    {
        self.0
    }
}

impl<'a, T: WrittenValue> WrittenValue for EncodeValueRef<'a, T> {
    ghost contents = { λ v. T.contents v.0.now };

    ghost writable = { λ v. T.writable v.0.now };
}

/// Writes the contents of the value that the reference refers to.
///
/// # Errors
///
/// Those of writing the contents of that value, with the same positions. The writer is left in the
/// state in which writing them leaves it.
impl<'a, T: EncodeValue> EncodeValue for EncodeValueRef<'a, T> {
    ghost value_size = { λ v. T.value_size v.0.now };

    ghost encode_value_answers = { λ v. T.encode_value_answers v.0.now };

    fn value_len(&self) -> Result<Length, Error> {
        self.0.value_len()
    }

    fn encode_value<W: Writer>(&self, writer: &mut W) -> Result<(), Error> {
        self.0.encode_value(writer)
    }

    fn value_len_before(&self) -> Option<u32> {
        self.0.value_len_before()
    }

    fn encode_value_before(&self, buf: &mut [u8], end: u32) -> u32 {
        self.0.encode_value_before(buf, end)
    }
}

impl<'a, T: Tagged> Tagged for EncodeValueRef<'a, T> {
    ghost tag_of = { λ v. T.tag_of v.0.now };

    fn tag(&self) -> Tag {
        self.0.tag()
    }
}
