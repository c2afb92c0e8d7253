//! Written by asn1_compile from the module PKCS-12: change the module instead.
//!
//! SafeBag.
ghost use Rattle.std.specs.Prelude.{◌≡◌};
ghost use Rattle.std.proofs.Common.{refl};
ghost use Rattle.der.specs.Prelude.{map_ok};
ghost use Rattle.der_asn1.specs.Meaning.{alternative, field, is_lawful_item, optional, sequence, sequence_item};
ghost use Rattle.der_asn1.specs.TupleFields.{three_fields};

use der::{
    Decode, DecodeValue, Encode, Error, FieldsCall, FromFields, HasFields, Header, IsValue, Lends,
    Reader, Sequence, SliceReader, decode_sequence, field_refs,
};
use der_asn1::{Described, ExplicitAny, Item, LawfulItem, ObjectIdentifierRef, Optional};
use std::alloc::Global;
use x509::Attributes;

/// A bag: a private key, a certificate, or other contents (RFC 7292, 4.2), borrowed from the input.
#[derive(Clone, Copy, Debug, Drop, PartialEq, Eq)]
pub struct SafeBag<'a> {
    /// The type of the bag.
    pub bag_id: ObjectIdentifierRef<'a>,
    /// The contents of the bag: an element of any tag. The contents are not checked.
    pub bag_value: ExplicitAny<'a, 0>,
    /// The attributes, if present, such as a friendlyName.
    pub bag_attributes: Optional<Attributes<'a>>,
}

/// The fields of [`SafeBag`] as one type, in the order in which they are encoded.
pub type SafeBagFields<'a> = (
    ObjectIdentifierRef<'a>,
    ExplicitAny<'a, 0>,
    Optional<Attributes<'a>>,
);

impl<'a> FromFields<SafeBagFields<'a>> for SafeBag<'a> {
    ghost fields = { λ v. (v.bag_id, v.bag_value, v.bag_attributes) };

    fn from_fields(fields: SafeBagFields<'a>) -> Self {
        let (bag_id, bag_value, bag_attributes) = fields;
        SafeBag {
            bag_id,
            bag_value,
            bag_attributes,
        }
    }
}

impl<'a> Sequence for SafeBag<'a> {
    ghost meaning = { sequence (three_fields (field (alternative
        ⟦<ObjectIdentifierRef<'a> as Described>⟧.element)) (field (alternative
        ⟦<ExplicitAny<'a, 0> as Described>⟧.element)) (optional (alternative
        ⟦<Attributes<'a> as Described>⟧.element)))
        ⟦<SafeBag<'a> as FromFields<SafeBagFields<'a>>>⟧.fields };

    ghost fits = { (refl, refl) };
}

/// Decodes the fields, first to last. The errors are those that [`Sequence`] lists.
impl<'a, R: Lends<Borrowed = &'a [u8]>> DecodeValue<R> for SafeBag<'a> {
    type Error = Error;

    ghost decode_value_answers = { λ h s result t.
        ⟦<SafeBagFields<'a> as Decode<SliceReader<'a>>>⟧.decode_answers s (map_ok
        ⟦<SafeBag<'a> as FromFields<SafeBagFields<'a>>>⟧.fields result) t };

    fn decode_value(alloc: Global, reader: &mut R, header: Header) -> Result<Self, Error>
    where
        R: Reader,
    {
        decode_sequence::<R, SafeBagFields<'a>, Self>(alloc, reader, header)
    }
}

impl<'a> IsValue for SafeBag<'a> {
    fn is_value(&self) {
        self.bag_id.is_value();
        self.bag_value.is_value();
        if let Some(value) = &self.bag_attributes.0 {
            value.is_value();
        }
    }
}

/// Writes the fields, first to last. The errors are those that [`Sequence`] lists.
impl<'a> HasFields for SafeBag<'a> {
    ghost fields_size = { λ v. ⟦<SafeBagFields<'a> as Encode>⟧.size
        (⟦<SafeBag<'a> as FromFields<SafeBagFields<'a>>>⟧.fields v) };

    ghost fields_answers = { λ v. ⟦<SafeBagFields<'a> as Encode>⟧.encode_answers
        (⟦<SafeBag<'a> as FromFields<SafeBagFields<'a>>>⟧.fields v) };

    fn call_fields<S, C: FieldsCall<S>>(
        &self,
        call: &C,
        state: &mut S,
        buf: &mut [u8],
    ) -> C::Output {
        call.call(
            &field_refs!(self, (bag_id, bag_value, bag_attributes)),
            state,
            buf,
        )
    }
}

impl<'a> Item for SafeBag<'a> {
    ghost item = { sequence_item ⟦<SafeBag<'a> as Described>⟧.element };
}

impl<'a> LawfulItem for SafeBag<'a> {
    ghost is_lawful_item = { is_lawful_item ⟦<SafeBag<'a> as Described>⟧.element refl };
}
