//! Encoding of pairs of fields, the first member before the second.
ghost use Rattle.std.specs.Prelude.{◌≡◌, ◌++◌};
ghost use Rattle.der_core.specs.Fields.{fields_size, FieldsWritten};

use crate::encode::Encode;
use crate::writer::Writer;
use der_base::{Error, Length};

/// Writes the first member of the pair, and then the second. To write three fields, nest the pairs,
/// as in `(A, (B, C))`.
///
/// # Errors
///
/// Those of the first member. If there is no error of the first member, those of the second.
/// [`Encode::encoded_len`] also fails with `Overflow` without a position, if the two members
/// together have more than 4294967295 octets.
impl<A: Encode, B: Encode> Encode for (A, B) {
    ghost encoding = { λ v. A.encoding v.0 ++ B.encoding v.1 };

    ghost encodable = { λ v. A.encodable v.0 × B.encodable v.1 };

    ghost size = { λ v. fields_size (A.size v.0) (B.size v.1) };

    ghost encode_answers = { λ v. FieldsWritten (A.encode_answers v.0) (B.encode_answers v.1) };

    #[inline(always)]
    fn encoded_len(&self) -> Result<Length, Error> {
        self.0.encoded_len()? + self.1.encoded_len()?
    }

    #[inline(always)]
    fn encode<W: Writer>(&self, writer: &mut W) -> Result<(), Error> {
        // each result is matched immediately, as in `encode_tlv`
        if let Err(error) = self.0.encode(writer) {
            return Err(error);
        }
        if let Err(error) = self.1.encode(writer) {
            return Err(error);
        }
        Ok(())
    }

    #[inline(always)]
    fn len_before(&self) -> Option<u32> {
        match (self.0.len_before(), self.1.len_before()) {
            (Some(first), Some(second)) => first.checked_add(second),
            _ => None,
        }
    }

    #[inline(always)]
    fn encode_before(&self, buf: &mut [u8], end: u32) -> u32 {
        let middle = self.1.encode_before(buf, end);
        self.0.encode_before(buf, middle)
    }
}
