//! A type whose `encode` writes an octet and then fails.
ghost use Rattle.std.specs.Prelude.{◌≡◌, [], ◌∷◌, Ok, Err};
ghost use Rattle.der.specs.Prelude.{definite_length, error_of_kind, write_outcome};
ghost use Rattle.der.specs.ErrorKinds.{Overflow};
ghost use Rattle.der.specs.Encode.{ThenAnswer};

use der::{Encode, Error, ErrorKind, Length, Writer};

/// A value whose `encode` writes the octet `0xAA` and then fails with `Overflow`. If the writer
/// cannot write the octet, `encode` fails with the error of the writer.
#[derive(Clone, Copy)]
pub struct HalfWritten;

impl Encode for HalfWritten {
    ghost encoding = { λ _. 170 ∷ [] };

    ghost encodable = { λ _. ⊥ };

    ghost size = { λ _. Ok (definite_length 1) };

    ghost encode_answers = { λ _ s r t. ThenAnswer (write_outcome (170 ∷ []) s).answer
        (write_outcome (170 ∷ []) s).after (λ u r t. (r ≡ Err (error_of_kind Overflow)) × (t ≡ u))
        s r t };

    fn encoded_len(&self) -> Result<Length, Error> {
        Ok(Length::ONE)
    }

    fn encode<W: Writer>(&self, writer: &mut W) -> Result<(), Error> {
        match writer.write_byte(0xAA) {
            Ok(()) => Err(ErrorKind::Overflow.to_error()),
            Err(error) => Err(error),
        }
    }
}
