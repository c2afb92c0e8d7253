//! References that are encoded as the value that they refer to.
ghost use Rattle.std.specs.Prelude.{◌≡◌};

mod value;

use crate::encode::Encode;
use crate::writer::Writer;
use der_base::{Error, Length};
pub use value::EncodeValueRef;

/// A reference to a value, encoded as that value.
#[derive(Debug, Drop)]
pub struct EncodeRef<'a, T>(pub &'a T);

impl<'a, T> EncodeRef<'a, T> {
    /// The value that the reference refers to.
    pub fn as_ref(&self) -> &T
        ensures { result.now ≡ self.now.0.now }
    {
        self.0
    }
}

/// Writes the encoding of the value that the reference refers to.
///
/// # Errors
///
/// Those of writing that value, with the same positions. The writer is left in the state in which
/// writing that value leaves it.
impl<'a, T: Encode> Encode for EncodeRef<'a, T> {
    ghost encoding = { λ v. T.encoding v.0.now };

    ghost encodable = { λ v. T.encodable v.0.now };

    ghost size = { λ v. T.size v.0.now };

    ghost encode_answers = { λ v. T.encode_answers v.0.now };

    #[inline(always)]
    fn encoded_len(&self) -> Result<Length, Error> {
        self.0.encoded_len()
    }

    #[inline(always)]
    fn encode<W: Writer>(&self, writer: &mut W) -> Result<(), Error> {
        // each result is matched immediately, as in `encode_tlv`
        if let Err(error) = self.0.encode(writer) {
            return Err(error);
        }
        Ok(())
    }

    #[inline(always)]
    fn len_before(&self) -> Option<u32> {
        self.0.len_before()
    }

    #[inline(always)]
    fn encode_before(&self, buf: &mut [u8], end: u32) -> u32 {
        self.0.encode_before(buf, end)
    }
}

/// References to fields of a value, as the tuple in which the fields are encoded: with the names or
/// the numbers of the fields in place of the fields, `field_refs!(value, (a, (b, c)))` is
/// `(EncodeRef(&value.a), (EncodeRef(&value.b), EncodeRef(&value.c)))`.
#[macro_export]
macro_rules! field_refs {
    ($value:ident, ($($field:tt),+)) => {
        ($($crate::field_refs!($value, $field)),+)
    };
    ($value:ident, $field:tt) => {
        $crate::EncodeRef(&$value.$field)
    };
}
