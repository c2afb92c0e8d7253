//! Encoding of boxed values: they are written as the values that they hold.
use crate::encode::{EncodeValue, WrittenValue};
use crate::writer::Writer;
use der_base::{Error, Length};

impl<T: WrittenValue> WrittenValue for Box<T> {
    ghost contents = { λ v. T.contents v.value };

    ghost writable = { λ v. T.writable v.value };
}

/// Writes the contents of the value that the box holds.
///
/// # Errors
///
/// Those of writing the contents of that value, with the same positions. The writer is left in the
/// state in which writing them leaves it.
impl<T: EncodeValue> EncodeValue for Box<T> {
    ghost value_size = { λ v. T.value_size v.value };

    ghost encode_value_answers = { λ v. T.encode_value_answers v.value };

    fn value_len(&self) -> Result<Length, Error> {
        (**self).value_len()
    }

    fn encode_value<W: Writer>(&self, writer: &mut W) -> Result<(), Error> {
        (**self).encode_value(writer)
    }

    fn value_len_before(&self) -> Option<u32> {
        (**self).value_len_before()
    }

    fn encode_value_before(&self, buf: &mut [u8], end: u32) -> u32 {
        (**self).encode_value_before(buf, end)
    }
}
