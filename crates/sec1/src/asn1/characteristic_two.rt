//! Written by asn1_compile from the module SEC1: change the module instead.
//!
//! CharacteristicTwo.
ghost use Rattle.std.specs.Prelude.{◌≡◌};
ghost use Rattle.std.proofs.Common.{refl};
ghost use Rattle.der.specs.Prelude.{map_ok};
ghost use Rattle.der_asn1.specs.Meaning.{alternative, any_element, field, is_lawful_item, sequence, sequence_item};
ghost use Rattle.der_asn1.specs.TupleFields.{three_fields};

use der::{
    Decode, DecodeValue, Encode, Error, FieldsCall, FromFields, HasFields, Header, IsValue, Lends,
    Reader, Sequence, SliceReader, decode_sequence, field_refs,
};
use der_asn1::{AnyRef, Described, IntRef, Item, LawfulItem, ObjectIdentifierRef};
use std::alloc::Global;

/// The parameters of a field with 2^m elements (SEC 1, C.1), borrowed from the input.
#[derive(Clone, Copy, Debug, Drop, PartialEq, Eq)]
pub struct CharacteristicTwo<'a> {
    /// The exponent m of the number of elements, 2^m.
    pub m: IntRef<'a>,
    /// The kind of the basis, such as tpBasis.
    pub basis: ObjectIdentifierRef<'a>,
    /// The parameters of the basis: NULL, a Trinomial or a Pentanomial, as the kind of the basis
    /// says. Decoding does not check this.
    pub parameters: AnyRef<'a>,
}

/// The fields of [`CharacteristicTwo`] as one type, in the order in which they are encoded.
pub type CharacteristicTwoFields<'a> = (IntRef<'a>, ObjectIdentifierRef<'a>, AnyRef<'a>);

impl<'a> FromFields<CharacteristicTwoFields<'a>> for CharacteristicTwo<'a> {
    ghost fields = { λ v. (v.m, v.basis, v.parameters) };

    fn from_fields(fields: CharacteristicTwoFields<'a>) -> Self {
        let (m, basis, parameters) = fields;
        CharacteristicTwo {
            m,
            basis,
            parameters,
        }
    }
}

impl<'a> Sequence for CharacteristicTwo<'a> {
    ghost meaning = { sequence (three_fields (field (alternative
        ⟦<IntRef<'a> as Described>⟧.element)) (field (alternative
        ⟦<ObjectIdentifierRef<'a> as Described>⟧.element)) (field any_element))
        ⟦<CharacteristicTwo<'a> as FromFields<CharacteristicTwoFields<'a>>>⟧.fields };

    ghost fits = { (refl, refl) };
}

/// Decodes the fields, first to last. The errors are those that [`Sequence`] lists.
impl<'a, R: Lends<Borrowed = &'a [u8]>> DecodeValue<R> for CharacteristicTwo<'a> {
    type Error = Error;

    ghost decode_value_answers = { λ h s result t.
        ⟦<CharacteristicTwoFields<'a> as Decode<SliceReader<'a>>>⟧.decode_answers s (map_ok
        ⟦<CharacteristicTwo<'a> as FromFields<CharacteristicTwoFields<'a>>>⟧.fields result) t };

    fn decode_value(alloc: Global, reader: &mut R, header: Header) -> Result<Self, Error>
    where
        R: Reader,
    {
        decode_sequence::<R, CharacteristicTwoFields<'a>, Self>(alloc, reader, header)
    }
}

impl<'a> IsValue for CharacteristicTwo<'a> {
    fn is_value(&self) {
        self.m.is_value();
        self.basis.is_value();
        self.parameters.is_value();
    }
}

/// Writes the fields, first to last. The errors are those that [`Sequence`] lists.
impl<'a> HasFields for CharacteristicTwo<'a> {
    ghost fields_size = { λ v. ⟦<CharacteristicTwoFields<'a> as Encode>⟧.size
        (⟦<CharacteristicTwo<'a> as FromFields<CharacteristicTwoFields<'a>>>⟧.fields v) };

    ghost fields_answers = { λ v. ⟦<CharacteristicTwoFields<'a> as Encode>⟧.encode_answers
        (⟦<CharacteristicTwo<'a> as FromFields<CharacteristicTwoFields<'a>>>⟧.fields v) };

    fn call_fields<S, C: FieldsCall<S>>(
        &self,
        call: &C,
        state: &mut S,
        buf: &mut [u8],
    ) -> C::Output {
        call.call(&field_refs!(self, (m, basis, parameters)), state, buf)
    }
}

impl<'a> Item for CharacteristicTwo<'a> {
    ghost item = { sequence_item ⟦<CharacteristicTwo<'a> as Described>⟧.element };
}

impl<'a> LawfulItem for CharacteristicTwo<'a> {
    ghost is_lawful_item = { is_lawful_item ⟦<CharacteristicTwo<'a> as Described>⟧.element refl };
}
