//! A type for tests whose contents can have any length.
ghost use Rattle.std.specs.Prelude.{◌≡◌, ◌+◌, ◌≤◌, false, Ok, IsOk, OnOk, length, replicate};
ghost use Rattle.der.specs.Prelude.{definite_length, OctetString, Keeps, Appends};
ghost use Rattle.der.specs.Writer.{Fits};

use der::{EncodeValue, Error, Length, Tag, Tagged, Writer, WrittenValue};

/// An OCTET STRING of `count` zero octets.
#[derive(Clone, Copy)]
pub struct Zeros {
    /// The number of contents octets.
    pub count: u32,
}

impl Tagged for Zeros {
    ghost tag_of = { λ _. OctetString };

    fn tag(&self) -> Tag {
        Tag::OctetString
    }
}

impl WrittenValue for Zeros {
    ghost contents = { λ zeros. replicate zeros.count 0 };

    ghost writable = { λ _. Unit {0} };
}

impl EncodeValue for Zeros {
    ghost value_size = { λ zeros. Ok (definite_length zeros.count) };

    // the contract leaves its errors open
    ghost encode_value_answers = { λ _ _ _ _. Unit {0} };

    fn value_len(&self) -> Result<Length, Error> {
        Ok(Length::new(self.count))
    }

    fn encode_value<W: Writer>(&self, writer: &mut W) -> Result<(), Error> {
        write_zeros(writer, self.count)
    }
}

fn write_zeros<W: Writer>(writer: &mut W, count: u32) -> Result<(), Error>
    ensures kept { Keeps (W.state writer.old) (W.state writer.new) }
    ensures ok { Appends (W.state writer.old) (replicate count 0) result (W.state writer.new) }
    ensures succeeds { Fits (W.state writer.old) (replicate count 0) result }
{
    if count == 0 {
        return Ok(());
    }
    write_zeros(writer, count - 1)?;
    writer.write_byte(0)
}
