//! A type for tests whose comparison, length and tag can be chosen.
ghost use Rattle.std.specs.Prelude.{◌≡◌, [], Ok, IsOk};
ghost use Rattle.der.specs.Prelude.{definite_length, map_ok};

use der::{EncodeValue, Error, Length, Tag, Tagged, ValueOrd, Writer, WrittenValue};
use std::cmp::Ordering;

/// A value without contents octets. Its fields are the results that its methods return.
#[derive(Clone, Copy)]
pub struct Ranked {
    /// The tag that the method [`Tagged::tag`] returns.
    pub tag: Tag,
    /// The result that the method [`EncodeValue::value_len`] returns. `Ok` stands for the length 0,
    /// and `Err` has the error.
    pub size: Result<(), Error>,
    /// The result that the method [`ValueOrd::value_cmp`] returns. It does not depend on the other
    /// value.
    pub order: Result<Ordering, Error>,
}

impl Tagged for Ranked {
    ghost tag_of = { λ v. v.tag };

    fn tag(&self) -> Tag {
        self.tag
    }
}

impl WrittenValue for Ranked {
    ghost contents = { λ _. [] };

    ghost writable = { λ v. IsOk v.size };
}

impl EncodeValue for Ranked {
    ghost value_size = { λ v. map_ok (λ _. definite_length 0) v.size };

    ghost encode_value_answers = { λ _ s result t. (result ≡ Ok tt) × (t ≡ s) };

    fn value_len(&self) -> Result<Length, Error> {
        match self.size {
            Ok(()) => Ok(Length::ZERO),
            Err(error) => Err(error),
        }
    }

    fn encode_value<W: Writer>(&self, _writer: &mut W) -> Result<(), Error> {
        Ok(())
    }
}

impl ValueOrd for Ranked {
    ghost value_order = { λ v _. v.order };

    fn value_cmp(&self, _other: &Self) -> Result<Ordering, Error> {
        self.order
    }
}
