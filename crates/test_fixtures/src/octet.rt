//! A type whose decoding has its own error type. An [`Error`] is converted to this error type.
ghost use Rattle.std.specs.Prelude.{◌≡◌, [], ◌∷◌, false};
ghost use Rattle.std.proofs.Common.{ap};
ghost use Rattle.der.specs.Prelude.{kind_of, OctetString};
ghost use Rattle.der.specs.Decode.{is_out_of_memory_kind};

use der::{
    DecodeError, DecodeValue, Error, FixedTag, Header, Lends, ReadValue, Reader, ReaderExt, Tag,
};
use std::alloc::Global;

/// The error of decoding an [`Octet`]. It wraps an [`Error`].
#[derive(Clone, Copy, Debug, PartialEq, Eq)]
pub struct OctetError {
    /// The [`Error`] that was converted to this error.
    pub error: Error,
}

impl From<Error> for OctetError {
    ghost from_gives = { λ error e. e.error ≡ error };

    fn from(error: Error) -> Self {
        OctetError { error }
    }
}

impl DecodeError for OctetError {
    ghost out_of_memory = { λ e. is_out_of_memory_kind (kind_of e.error) };

    fn is_out_of_memory(&self) -> bool {
        self.error.is_out_of_memory()
    }

    ghost carries = { λ error e same. ap (λ x. is_out_of_memory_kind (kind_of x)) same };
}

/// An OCTET STRING with one contents octet, which may have any value.
#[derive(Clone, Copy, Debug, PartialEq, Eq)]
pub struct Octet {
    /// The contents octet.
    pub number: u8,
}

impl FixedTag for Octet {
    ghost tag_is = { OctetString };

    const TAG: Tag = Tag::OctetString;

    fn fixed_tag() -> Tag {
        Self::TAG
    }
}

impl ReadValue for Octet {
    ghost valid = { λ _. Unit {0} };

    ghost takes = { λ v _ _ octets. v.number ∷ [] ≡ octets };

    ghost value_levels = { λ _. 0 };

    ghost allocates = { false };

    ghost takes_valid = { λ v rules h octets taken. tt };
}

impl<R: Lends> DecodeValue<R> for Octet {
    type Error = OctetError;

    ghost decode_value_answers = { λ _ _ _ _. Unit {0} };

    fn decode_value(_alloc: Global, reader: &mut R, _header: Header) -> Result<Self, OctetError>
    where
        R: Reader,
    {
        let number = reader.read_byte()?;
        Ok(Octet { number })
    }
}
