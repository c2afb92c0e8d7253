//! Written by asn1_compile from the module Parcels: change the module instead.
//!
//! Label.
ghost use Rattle.std.specs.Prelude.{◌≡◌};
ghost use Rattle.std.proofs.Common.{refl};
ghost use Rattle.der.specs.Prelude.{map_ok};
ghost use Rattle.der_asn1.specs.Meaning.{alternative, field, is_lawful_item, optional, sequence, sequence_item};
ghost use Rattle.der_asn1.specs.TupleFields.{four_fields};

use crate::asn1::address::Address;
use crate::asn1::seal::Seal;
use der::{
    Decode, DecodeValue, Encode, Error, FieldsCall, FromFields, HasFields, Header, IsValue, Lends,
    Reader, Sequence, SliceReader, decode_sequence, field_refs,
};
use der_asn1::{
    BitStringRef, Described, Implicit, Item, LawfulItem, OctetStringOf, OctetStringRef, Optional,
};
use std::alloc::Global;

/// The label on a parcel: a picture, octets, and the encoding of an address.
#[derive(Clone, Copy, Debug, Drop, PartialEq, Eq)]
pub struct Label<'a> {
    /// The picture on the label, one bit for each point.
    pub picture: BitStringRef<'a>,
    /// The eight octets of the code on the label. Their number is not checked.
    pub octets: OctetStringRef<'a>,
    /// The encoding of the address on the label.
    pub address: OctetStringOf<Address<'a>>,
    /// The seal of the label, if it has one.
    pub seal: Optional<Implicit<Seal<'a>, 0>>,
}

/// The fields of [`Label`] as one type, in the order in which they are encoded.
pub type LabelFields<'a> = (
    BitStringRef<'a>,
    OctetStringRef<'a>,
    OctetStringOf<Address<'a>>,
    Optional<Implicit<Seal<'a>, 0>>,
);

impl<'a> FromFields<LabelFields<'a>> for Label<'a> {
    ghost fields = { λ v. (v.picture, v.octets, v.address, v.seal) };

    fn from_fields(fields: LabelFields<'a>) -> Self {
        let (picture, octets, address, seal) = fields;
        Label {
            picture,
            octets,
            address,
            seal,
        }
    }
}

impl<'a> Sequence for Label<'a> {
    ghost meaning = { sequence (four_fields (field (alternative
        ⟦<BitStringRef<'a> as Described>⟧.element)) (field (alternative
        ⟦<OctetStringRef<'a> as Described>⟧.element)) (field (alternative
        ⟦<OctetStringOf<Address<'a>> as Described>⟧.element)) (optional (alternative
        ⟦<Implicit<Seal<'a>, 0> as Described>⟧.element)))
        ⟦<Label<'a> as FromFields<LabelFields<'a>>>⟧.fields };

    ghost fits = { (refl, refl) };
}

/// Decodes the fields, first to last. The errors are those that [`Sequence`] lists.
impl<'a, R: Lends<Borrowed = &'a [u8]>> DecodeValue<R> for Label<'a> {
    type Error = Error;

    ghost decode_value_answers = { λ h s result t.
        ⟦<LabelFields<'a> as Decode<SliceReader<'a>>>⟧.decode_answers s (map_ok
        ⟦<Label<'a> as FromFields<LabelFields<'a>>>⟧.fields result) t };

    fn decode_value(alloc: Global, reader: &mut R, header: Header) -> Result<Self, Error>
    where
        R: Reader,
    {
        decode_sequence::<R, LabelFields<'a>, Self>(alloc, reader, header)
    }
}

impl<'a> IsValue for Label<'a> {
    fn is_value(&self) {
        self.picture.is_value();
        self.octets.is_value();
        self.address.is_value();
        if let Some(value) = &self.seal.0 {
            value.is_value();
        }
    }
}

/// Writes the fields, first to last. The errors are those that [`Sequence`] lists.
impl<'a> HasFields for Label<'a> {
    ghost fields_size = { λ v. ⟦<LabelFields<'a> as Encode>⟧.size
        (⟦<Label<'a> as FromFields<LabelFields<'a>>>⟧.fields v) };

    ghost fields_answers = { λ v. ⟦<LabelFields<'a> as Encode>⟧.encode_answers
        (⟦<Label<'a> as FromFields<LabelFields<'a>>>⟧.fields v) };

    fn call_fields<S, C: FieldsCall<S>>(
        &self,
        call: &C,
        state: &mut S,
        buf: &mut [u8],
    ) -> C::Output {
        call.call(
            &field_refs!(self, (picture, octets, address, seal)),
            state,
            buf,
        )
    }
}

impl<'a> Item for Label<'a> {
    ghost item = { sequence_item ⟦<Label<'a> as Described>⟧.element };
}

impl<'a> LawfulItem for Label<'a> {
    ghost is_lawful_item = { is_lawful_item ⟦<Label<'a> as Described>⟧.element refl };
}
