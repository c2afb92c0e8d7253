//! Decoding of boxed values.
ghost use Rattle.std.specs.Prelude.{true};
ghost use Rattle.der_core.specs.Boxed.{BoxedRead};

use crate::decode::{DecodeValue, IsValue, Lawful, ReadValue};
use crate::header::Header;
use crate::reader::{Lends, Reader};
use der_base::ErrorKind;
use std::alloc::Global;

impl<T: ReadValue> ReadValue for Box<T> {
    ghost valid = { λ v. T.valid v.value };

    ghost takes = { λ v. T.takes v.value };

    ghost value_levels = { T.value_levels };

    ghost allocates = { true };

    ghost takes_valid = { λ v rules h octets taken. T.takes_valid v.value rules h octets taken };
}

/// Decodes the value that the box will hold, and then allocates the box.
///
/// # Errors
///
/// - The errors of [`DecodeValue::decode_value`] of the value.
/// - `OutOfMemory` without a position, if the allocation fails; the reader is in the state in which
///   decoding the value leaves it.
impl<R: Lends, T: DecodeValue<R>> DecodeValue<R> for Box<T> {
    type Error = <T as DecodeValue<R>>::Error;

    ghost decode_value_answers = { λ h. BoxedRead (λ b. b.value) (T.decode_value_answers h)
        T.Error.from_gives };

    fn decode_value(
        alloc: Global,
        reader: &mut R,
        header: Header,
    ) -> Result<Self, <T as DecodeValue<R>>::Error>
    where
        R: Reader,
    {
        let value = T::decode_value(alloc, reader, header)?;
        match Box::new(alloc, value) {
            Ok(boxed) => Ok(boxed),
            Err(_) => Err(ErrorKind::OutOfMemory.to_error().into()),
        }
    }
}

impl<T: IsValue> IsValue for Box<T> {
    fn is_value(&self) {
        (**self).is_value()
    }
}

impl<T: Lawful> Lawful for Box<T> {
    ghost lawful = { record {
      exact = λ octets v short. T.lawful.exact octets v.value short;
      shallow = T.lawful.shallow;
      numbered = T.lawful.numbered;
    } };
}
