//! The type that the documentation of `EncodeValue` shows as an example.
ghost use Rattle.std.specs.Prelude.{◌≡◌, [], ◌∷◌, Ok, IfOk};
ghost use Rattle.der_base.specs.Length.{definite_length};
ghost use Rattle.der_base.specs.declared.tag.Tag.TheVariants.{OctetString};
ghost use Rattle.der_core.specs.Writer.{Writes, write_outcome};

use der_base::{Error, Length, Tag};
use der_core::{Encode, EncodeValue, FixedTag, Writer, WrittenValue};

pub struct Month {
    pub number: u8,
}

impl FixedTag for Month {
    ghost tag_is = { OctetString };

    const TAG: Tag = Tag::OctetString;

    fn fixed_tag() -> Tag {
        Self::TAG
    }
}

impl WrittenValue for Month {
    ghost contents = { λ month. month.number ∷ [] };

    ghost writable = { λ _. Unit {0} };
}

impl EncodeValue for Month {
    ghost value_size = { λ _. Ok (definite_length 1) };

    ghost encode_value_answers = { λ month s r t.
        Writes (write_outcome (month.number ∷ []) s) r t };

    fn value_len(&self) -> Result<Length, Error> {
        Ok(Length::ONE)
    }

    fn encode_value<W: Writer>(&self, writer: &mut W) -> Result<(), Error> {
        writer.write_byte(self.number)
    }
}

/// The octets `04 01` and the month's number, such as `04 01 09` for September.
pub fn month_der<'b>(month: &Month, buf: &'b mut [u8]) -> Result<&'b [u8], Error>
    ensures { IfOk result (λ r. r.now ≡ 4 ∷ 1 ∷ month.now.number ∷ []) }
{
    month.encode_to_slice(buf)
}
