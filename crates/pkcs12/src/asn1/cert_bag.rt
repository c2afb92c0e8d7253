//! Written by asn1_compile from the module PKCS-12: change the module instead.
//!
//! CertBag.
ghost use Rattle.std.specs.Prelude.{◌≡◌};
ghost use Rattle.std.proofs.Common.{refl};
ghost use Rattle.der.specs.Prelude.{map_ok};
ghost use Rattle.der_asn1.specs.Meaning.{alternative, field, is_lawful_item, sequence, sequence_item, two_fields};

use der::{
    Decode, DecodeValue, Encode, Error, FieldsCall, FromFields, HasFields, Header, IsValue, Lends,
    Reader, Sequence, SliceReader, decode_sequence, field_refs,
};
use der_asn1::{Described, ExplicitAny, Item, LawfulItem, ObjectIdentifierRef};
use std::alloc::Global;

/// A certificate of any type (RFC 7292, 4.2.3), borrowed from the input.
#[derive(Clone, Copy, Debug, Drop, PartialEq, Eq)]
pub struct CertBag<'a> {
    /// The type of the certificate.
    pub oid: ObjectIdentifierRef<'a>,
    /// The certificate: an element of any tag. The element is not checked.
    pub value: ExplicitAny<'a, 0>,
}

/// The fields of [`CertBag`] as one type, in the order in which they are encoded.
pub type CertBagFields<'a> = (ObjectIdentifierRef<'a>, ExplicitAny<'a, 0>);

impl<'a> FromFields<CertBagFields<'a>> for CertBag<'a> {
    ghost fields = { λ v. (v.oid, v.value) };

    fn from_fields(fields: CertBagFields<'a>) -> Self {
        let (oid, value) = fields;
        CertBag { oid, value }
    }
}

impl<'a> Sequence for CertBag<'a> {
    ghost meaning = { sequence (two_fields (field (alternative
        ⟦<ObjectIdentifierRef<'a> as Described>⟧.element)) (field (alternative
        ⟦<ExplicitAny<'a, 0> as Described>⟧.element)))
        ⟦<CertBag<'a> as FromFields<CertBagFields<'a>>>⟧.fields };

    ghost fits = { (refl, refl) };
}

/// Decodes the fields, first to last. The errors are those that [`Sequence`] lists.
impl<'a, R: Lends<Borrowed = &'a [u8]>> DecodeValue<R> for CertBag<'a> {
    type Error = Error;

    ghost decode_value_answers = { λ h s result t.
        ⟦<CertBagFields<'a> as Decode<SliceReader<'a>>>⟧.decode_answers s (map_ok
        ⟦<CertBag<'a> as FromFields<CertBagFields<'a>>>⟧.fields result) t };

    fn decode_value(alloc: Global, reader: &mut R, header: Header) -> Result<Self, Error>
    where
        R: Reader,
    {
        decode_sequence::<R, CertBagFields<'a>, Self>(alloc, reader, header)
    }
}

impl<'a> IsValue for CertBag<'a> {
    fn is_value(&self) {
        self.oid.is_value();
        self.value.is_value();
    }
}

/// Writes the fields, first to last. The errors are those that [`Sequence`] lists.
impl<'a> HasFields for CertBag<'a> {
    ghost fields_size = { λ v. ⟦<CertBagFields<'a> as Encode>⟧.size
        (⟦<CertBag<'a> as FromFields<CertBagFields<'a>>>⟧.fields v) };

    ghost fields_answers = { λ v. ⟦<CertBagFields<'a> as Encode>⟧.encode_answers
        (⟦<CertBag<'a> as FromFields<CertBagFields<'a>>>⟧.fields v) };

    fn call_fields<S, C: FieldsCall<S>>(
        &self,
        call: &C,
        state: &mut S,
        buf: &mut [u8],
    ) -> C::Output {
        call.call(&field_refs!(self, (oid, value)), state, buf)
    }
}

impl<'a> Item for CertBag<'a> {
    ghost item = { sequence_item ⟦<CertBag<'a> as Described>⟧.element };
}

impl<'a> LawfulItem for CertBag<'a> {
    ghost is_lawful_item = { is_lawful_item ⟦<CertBag<'a> as Described>⟧.element refl };
}
