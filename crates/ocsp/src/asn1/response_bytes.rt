//! Written by asn1_compile from the module OCSP: change the module instead.
//!
//! ResponseBytes.
ghost use Rattle.std.specs.Prelude.{◌≡◌};
ghost use Rattle.std.proofs.Common.{refl};
ghost use Rattle.der.specs.Prelude.{map_ok};
ghost use Rattle.der_asn1.specs.Meaning.{alternative, field, is_lawful_item, sequence, sequence_item, two_fields};

use der::{
    Decode, DecodeValue, Encode, Error, FieldsCall, FromFields, HasFields, Header, IsValue, Lends,
    Reader, Sequence, SliceReader, decode_sequence, field_refs,
};
use der_asn1::{Described, Item, LawfulItem, ObjectIdentifierRef, OctetStringRef};
use std::alloc::Global;

/// A response as octets, with its type (RFC 6960, 4.2.1), borrowed from the input.
#[derive(Clone, Copy, Debug, Drop, PartialEq, Eq)]
pub struct ResponseBytes<'a> {
    /// The type of the response.
    pub response_type: ObjectIdentifierRef<'a>,
    /// The encoding of the response, which is not checked. For id-pkix-ocsp-basic it is that of a
    /// BasicOCSPResponse.
    pub response: OctetStringRef<'a>,
}

/// The fields of [`ResponseBytes`] as one type, in the order in which they are encoded.
pub type ResponseBytesFields<'a> = (ObjectIdentifierRef<'a>, OctetStringRef<'a>);

impl<'a> FromFields<ResponseBytesFields<'a>> for ResponseBytes<'a> {
    ghost fields = { λ v. (v.response_type, v.response) };

    fn from_fields(fields: ResponseBytesFields<'a>) -> Self {
        let (response_type, response) = fields;
        ResponseBytes {
            response_type,
            response,
        }
    }
}

impl<'a> Sequence for ResponseBytes<'a> {
    ghost meaning = { sequence (two_fields (field (alternative
        ⟦<ObjectIdentifierRef<'a> as Described>⟧.element)) (field (alternative
        ⟦<OctetStringRef<'a> as Described>⟧.element)))
        ⟦<ResponseBytes<'a> as FromFields<ResponseBytesFields<'a>>>⟧.fields };

    ghost fits = { (refl, refl) };
}

/// Decodes the fields, first to last. The errors are those that [`Sequence`] lists.
impl<'a, R: Lends<Borrowed = &'a [u8]>> DecodeValue<R> for ResponseBytes<'a> {
    type Error = Error;

    ghost decode_value_answers = { λ h s result t.
        ⟦<ResponseBytesFields<'a> as Decode<SliceReader<'a>>>⟧.decode_answers s (map_ok
        ⟦<ResponseBytes<'a> as FromFields<ResponseBytesFields<'a>>>⟧.fields result) t };

    fn decode_value(alloc: Global, reader: &mut R, header: Header) -> Result<Self, Error>
    where
        R: Reader,
    {
        decode_sequence::<R, ResponseBytesFields<'a>, Self>(alloc, reader, header)
    }
}

impl<'a> IsValue for ResponseBytes<'a> {
    fn is_value(&self) {
        self.response_type.is_value();
        self.response.is_value();
    }
}

/// Writes the fields, first to last. The errors are those that [`Sequence`] lists.
impl<'a> HasFields for ResponseBytes<'a> {
    ghost fields_size = { λ v. ⟦<ResponseBytesFields<'a> as Encode>⟧.size
        (⟦<ResponseBytes<'a> as FromFields<ResponseBytesFields<'a>>>⟧.fields v) };

    ghost fields_answers = { λ v. ⟦<ResponseBytesFields<'a> as Encode>⟧.encode_answers
        (⟦<ResponseBytes<'a> as FromFields<ResponseBytesFields<'a>>>⟧.fields v) };

    fn call_fields<S, C: FieldsCall<S>>(
        &self,
        call: &C,
        state: &mut S,
        buf: &mut [u8],
    ) -> C::Output {
        call.call(&field_refs!(self, (response_type, response)), state, buf)
    }
}

impl<'a> Item for ResponseBytes<'a> {
    ghost item = { sequence_item ⟦<ResponseBytes<'a> as Described>⟧.element };
}

impl<'a> LawfulItem for ResponseBytes<'a> {
    ghost is_lawful_item = { is_lawful_item ⟦<ResponseBytes<'a> as Described>⟧.element refl };
}
