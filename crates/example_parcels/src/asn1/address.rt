//! Written by asn1_compile from the module Parcels: change the module instead.
//!
//! Address.
ghost use Rattle.std.specs.Prelude.{◌≡◌};
ghost use Rattle.std.proofs.Common.{refl};
ghost use Rattle.der.specs.Prelude.{map_ok};
ghost use Rattle.der_asn1.specs.Meaning.{alternative, field, is_lawful_item, optional, sequence, sequence_item};
ghost use Rattle.der_asn1.specs.TupleFields.{five_fields};

use der::{
    Decode, DecodeValue, Encode, Error, FieldsCall, FromFields, HasFields, Header, IsValue, Lends,
    Reader, Sequence, SliceReader, decode_sequence, field_refs,
};
use der_asn1::{
    Application, BmpStringRef, Described, Ia5StringRef, Implicit, Item, LawfulItem,
    NumericStringRef, Optional, PrintableStringRef, Utf8StringRef,
};
use std::alloc::Global;

/// The address of a person.
#[derive(Clone, Copy, Debug, Drop, PartialEq, Eq)]
pub struct Address<'a> {
    /// The name of the person.
    pub name: Utf8StringRef<'a>,
    /// The street and the number of the house.
    pub street: PrintableStringRef<'a>,
    /// The postal code, if known.
    pub code: Optional<Application<Implicit<NumericStringRef<'a>, 1>>>,
    /// What the address is for, such as `home`, if known.
    pub type_: Optional<Ia5StringRef<'a>>,
    /// A note for the driver, if there is one.
    pub note: Optional<BmpStringRef<'a>>,
}

/// The fields of [`Address`] as one type, in the order in which they are encoded.
pub type AddressFields<'a> = (
    Utf8StringRef<'a>,
    PrintableStringRef<'a>,
    Optional<Application<Implicit<NumericStringRef<'a>, 1>>>,
    Optional<Ia5StringRef<'a>>,
    Optional<BmpStringRef<'a>>,
);

impl<'a> FromFields<AddressFields<'a>> for Address<'a> {
    ghost fields = { λ v. (v.name, v.street, v.code, v.type_, v.note) };

    fn from_fields(fields: AddressFields<'a>) -> Self {
        let (name, street, code, type_, note) = fields;
        Address {
            name,
            street,
            code,
            type_,
            note,
        }
    }
}

impl<'a> Sequence for Address<'a> {
    ghost meaning = { sequence (five_fields (field (alternative
        ⟦<Utf8StringRef<'a> as Described>⟧.element)) (field (alternative
        ⟦<PrintableStringRef<'a> as Described>⟧.element)) (optional (alternative
        ⟦<Application<Implicit<NumericStringRef<'a>, 1>> as Described>⟧.element)) (optional
        (alternative ⟦<Ia5StringRef<'a> as Described>⟧.element)) (optional (alternative
        ⟦<BmpStringRef<'a> as Described>⟧.element)))
        ⟦<Address<'a> as FromFields<AddressFields<'a>>>⟧.fields };

    ghost fits = { (refl, refl) };
}

/// Decodes the fields, first to last. The errors are those that [`Sequence`] lists.
impl<'a, R: Lends<Borrowed = &'a [u8]>> DecodeValue<R> for Address<'a> {
    type Error = Error;

    ghost decode_value_answers = { λ h s result t.
        ⟦<AddressFields<'a> as Decode<SliceReader<'a>>>⟧.decode_answers s (map_ok
        ⟦<Address<'a> as FromFields<AddressFields<'a>>>⟧.fields result) t };

    fn decode_value(alloc: Global, reader: &mut R, header: Header) -> Result<Self, Error>
    where
        R: Reader,
    {
        decode_sequence::<R, AddressFields<'a>, Self>(alloc, reader, header)
    }
}

impl<'a> IsValue for Address<'a> {
    fn is_value(&self) {
        self.name.is_value();
        self.street.is_value();
        if let Some(value) = &self.code.0 {
            value.is_value();
        }
        if let Some(value) = &self.type_.0 {
            value.is_value();
        }
        if let Some(value) = &self.note.0 {
            value.is_value();
        }
    }
}

/// Writes the fields, first to last. The errors are those that [`Sequence`] lists.
impl<'a> HasFields for Address<'a> {
    ghost fields_size = { λ v. ⟦<AddressFields<'a> as Encode>⟧.size
        (⟦<Address<'a> as FromFields<AddressFields<'a>>>⟧.fields v) };

    ghost fields_answers = { λ v. ⟦<AddressFields<'a> as Encode>⟧.encode_answers
        (⟦<Address<'a> as FromFields<AddressFields<'a>>>⟧.fields v) };

    fn call_fields<S, C: FieldsCall<S>>(
        &self,
        call: &C,
        state: &mut S,
        buf: &mut [u8],
    ) -> C::Output {
        call.call(
            &field_refs!(self, (name, street, code, type_, note)),
            state,
            buf,
        )
    }
}

impl<'a> Item for Address<'a> {
    ghost item = { sequence_item ⟦<Address<'a> as Described>⟧.element };
}

impl<'a> LawfulItem for Address<'a> {
    ghost is_lawful_item = { is_lawful_item ⟦<Address<'a> as Described>⟧.element refl };
}
