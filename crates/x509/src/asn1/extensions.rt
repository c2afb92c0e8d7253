//! Written by asn1_compile from the module X509: change the module instead.
//!
//! Extensions.
ghost use Rattle.std.specs.Prelude.{◌≡◌, false};
ghost use Rattle.std.proofs.Common.{refl};
ghost use Rattle.der.specs.Prelude.{map_ok};
ghost use Rattle.der_asn1.specs.Meaning.{is_lawful_item, renamed, sequence_item};

use crate::asn1::extension::Extension;
use der::{
    DecodeValue, EncodeValue, Error, FromFields, Header, IsValue, Lends, Length, Reader, Sequence,
    SliceReader, Writer, decode_wrapped,
};
use der_asn1::{Described, Item, LawfulItem, SequenceOf};
use std::alloc::Global;

/// The extensions of a certificate (RFC 5280, 4.1), of a revocation list or of one of its entries
/// (5.1), borrowed from the input.
#[derive(Clone, Copy, Debug, Drop, PartialEq, Eq)]
pub struct Extensions<'a> {
    /// The items, as a SEQUENCE OF.
    pub items: SequenceOf<'a, Extension<'a>>,
}

// The list of which the value consists.
type Items<'a> = SequenceOf<'a, Extension<'a>>;

impl<'a> FromFields<Items<'a>> for Extensions<'a> {
    ghost fields = { λ v. v.items };

    fn from_fields(items: Items<'a>) -> Self {
        Extensions { items }
    }
}

impl<'a> Sequence for Extensions<'a> {
    ghost meaning = { renamed ⟦<Items<'a> as Described>⟧.element (λ v. v.items) };

    ghost fits = { (refl, refl) };
}

/// Decodes the list. The errors are those of decoding a [`SequenceOf`].
impl<'a, R: Lends<Borrowed = &'a [u8]>> DecodeValue<R> for Extensions<'a> {
    type Error = Error;

    ghost decode_value_answers = { λ h s result t.
        ⟦<Items<'a> as DecodeValue<SliceReader<'a>>>⟧.decode_value_answers h s
        (map_ok (λ v. v.items) result) t };

    fn decode_value(alloc: Global, reader: &mut R, header: Header) -> Result<Self, Error>
    where
        R: Reader,
    {
        decode_wrapped::<R, Items<'a>, Self>(alloc, reader, header)
    }
}

impl<'a> IsValue for Extensions<'a> {
    fn is_value(&self) {
        self.items.is_value();
    }
}

/// Writes the list. The errors are those of writing a [`SequenceOf`].
impl<'a> EncodeValue for Extensions<'a> {
    ghost value_size = { λ v. ⟦<Items<'a> as EncodeValue>⟧.value_size v.items };

    ghost encode_value_answers = { λ v. ⟦<Items<'a> as EncodeValue>⟧.encode_value_answers v.items };

    fn value_len(&self) -> Result<Length, Error> {
        self.items.value_len()
    }

    fn encode_value<W: Writer>(&self, writer: &mut W) -> Result<(), Error> {
        self.items.encode_value(writer)
    }

    fn value_len_before(&self) -> Option<u32> {
        self.items.value_len_before()
    }

    fn encode_value_before(&self, buf: &mut [u8], end: u32) -> u32 {
        self.items.encode_value_before(buf, end)
    }
}

impl<'a> Item for Extensions<'a> {
    ghost item = { sequence_item ⟦<Extensions<'a> as Described>⟧.element };
}

impl<'a> LawfulItem for Extensions<'a> {
    ghost is_lawful_item = { is_lawful_item ⟦<Extensions<'a> as Described>⟧.element refl };
}
