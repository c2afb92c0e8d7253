//! A type whose `Ord` is the order of its contents octets.
ghost use Rattle.std.specs.Prelude.{◌≡◌, [], ◌∷◌, Ok};
ghost use Rattle.std.specs.Ordering.{nat_cmp};
ghost use Rattle.std.proofs.Common.{sym};
ghost use Rattle.der.specs.Prelude.{definite_length, byte_order, Integer, Writes, write_outcome};
ghost use Rattle.der_base.proofs.OrderLemmas.{then_equal};

use der::{DerOrd, EncodeValue, Error, FixedTag, Length, OrdIsValueOrd, Tag, Writer, WrittenValue};
use std::cmp::Ordering;

/// The number of a day, as an example of a type with an order. It is encoded as an INTEGER whose
/// only contents octet is `number`. The derived `Ord` compares `number`, from 0 to 255.
#[derive(Clone, Copy, Debug, PartialEq, Eq, PartialOrd, Ord)]
pub struct Day {
    /// The contents octet.
    pub number: u8,
}

impl FixedTag for Day {
    ghost tag_is = { Integer };

    const TAG: Tag = Tag::Integer;

    fn fixed_tag() -> Tag {
        Self::TAG
    }
}

impl WrittenValue for Day {
    ghost contents = { λ day. day.number ∷ [] };

    ghost writable = { λ _. Unit {0} };
}

impl EncodeValue for Day {
    ghost value_size = { λ _. Ok (definite_length 1) };

    ghost encode_value_answers = { λ day s r t. Writes (write_outcome (day.number ∷ []) s) r t };

    fn value_len(&self) -> Result<Length, Error> {
        Ok(Length::ONE)
    }

    fn encode_value<W: Writer>(&self, writer: &mut W) -> Result<(), Error> {
        writer.write_byte(self.number)
    }
}

impl OrdIsValueOrd for Day {
    ghost orders_contents = { λ a b _. sym (then_equal (nat_cmp a.number b.number)) };
}

/// Compares two days with `DerOrd::der_cmp`. The contract of this function states that the result
/// is the order of their encodings, compared octet by octet.
pub fn compare_days(a: Day, b: Day) -> Result<Ordering, Error>
    ensures { result ≡ Ok (byte_order (2 ∷ 1 ∷ a.number ∷ []) (2 ∷ 1 ∷ b.number ∷ [])) }
{
    a.der_cmp(&b)
}
