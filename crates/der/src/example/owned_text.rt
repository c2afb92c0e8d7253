//! An owned UTF8String.
ghost use Rattle.std.specs.Prelude.{true};
ghost use Rattle.der_base.specs.declared.tag.Tag.TheVariants.{Utf8String};
ghost use Rattle.std.proofs.Common.{refl};
ghost use Rattle.der.specs.OctetsOrder.{octets_order};
ghost use Rattle.der.specs.Octets.{IsText, TakesOctets, OwnedTextRead, octets_size, OctetsWritten};
ghost use Rattle.der.specs.OwnedText.{owned_text_octets, owned_text_lawful};

use crate::string::StringOwned;
use der_base::{Error, Length, Tag};
use der_core::{
    DecodeValue, EncodeValue, FixedTag, Header, IsValue, Lawful, Lends, Orderly, ReadValue, Reader,
    ValueOrd, Writer, WrittenValue,
};
use std::alloc::Global;
use std::cmp::Ordering;

/// A UTF8String that owns its text.
#[derive(Debug, Drop)]
pub struct OwnedText {
    /// The contents of the UTF8String, as a text.
    pub text: StringOwned,
}

impl FixedTag for OwnedText {
    ghost tag_is = { Utf8String };

    const TAG: Tag = Tag::Utf8String;

    fn fixed_tag() -> Tag {
        Self::TAG
    }
}

impl ReadValue for OwnedText {
    ghost valid = { λ t. IsText (owned_text_octets t) };

    ghost takes = { TakesOctets IsText owned_text_octets };

    ghost value_levels = { λ _. 0 };

    ghost allocates = { true };

    ghost takes_valid = { λ t rules h octets taken. taken.0 };
}

/// Copies the contents into an owned text. Takes only the length from the header, and ignores the
/// header's tag.
///
/// # Errors
///
/// The errors of decoding a [`StringOwned`].
impl<R: Lends> DecodeValue<R> for OwnedText {
    type Error = Error;

    ghost decode_value_answers = { OwnedTextRead owned_text_octets };

    fn decode_value(alloc: Global, reader: &mut R, header: Header) -> Result<Self, Error>
    where
        R: Reader,
    {
        let text = StringOwned::decode_value(alloc, reader, header)?;
        Ok(OwnedText { text })
    }
}

impl IsValue for OwnedText {
    fn is_value(&self) {}
}

impl WrittenValue for OwnedText {
    ghost contents = { owned_text_octets };

    ghost writable = { λ t. IsText (owned_text_octets t) };
}

/// Writes the octets of the text as the contents.
///
/// # Errors
///
/// `value_len` never fails. `encode_value` returns the errors of [`Writer::write`].
impl EncodeValue for OwnedText {
    ghost value_size = { octets_size owned_text_octets };

    ghost encode_value_answers = { OctetsWritten owned_text_octets };

    fn value_len(&self) -> Result<Length, Error> {
        self.text.value_len()
    }

    fn encode_value<W: Writer>(&self, writer: &mut W) -> Result<(), Error> {
        self.text.encode_value(writer)
    }

    fn value_len_before(&self) -> Option<u32> {
        self.text.value_len_before()
    }

    fn encode_value_before(&self, buf: &mut [u8], end: u32) -> u32 {
        self.text.encode_value_before(buf, end)
    }
}

impl Lawful for OwnedText {
    ghost lawful = { owned_text_lawful };
}

/// Compares the octets of the texts in lexicographic order. Never fails.
impl ValueOrd for OwnedText {
    ghost value_order = { octets_order owned_text_octets };

    #[inline(always)]
    fn value_cmp(&self, other: &Self) -> Result<Ordering, Error> {
        Ok(self.text.as_bytes().cmp(other.text.as_bytes()))
    }
}

impl Orderly for OwnedText {
    ghost orderly = { λ _ _ _ _. refl };
}
