//! Written by asn1_compile from the module X509: change the module instead.
//!
//! OtherName.
ghost use Rattle.std.specs.Prelude.{◌≡◌};
ghost use Rattle.std.proofs.Common.{refl};
ghost use Rattle.der.specs.Prelude.{map_ok};
ghost use Rattle.der_asn1.specs.Meaning.{alternative, field, is_lawful_item, sequence, sequence_item, two_fields};

use der::{
    Decode, DecodeValue, Encode, Error, FieldsCall, FromFields, HasFields, Header, IsValue, Lends,
    Reader, Sequence, SliceReader, decode_sequence, field_refs,
};
use der_asn1::{Described, ExplicitAny, Item, LawfulItem, ObjectIdentifierRef};
use std::alloc::Global;

/// A name of another form, which an OBJECT IDENTIFIER gives (RFC 5280, 4.2.1.6), borrowed from the
/// input.
#[derive(Clone, Copy, Debug, Drop, PartialEq, Eq)]
pub struct OtherName<'a> {
    /// The form of the name, as an object identifier.
    pub type_id: ObjectIdentifierRef<'a>,
    /// The name: an element of any tag. Its contents are not checked.
    pub value: ExplicitAny<'a, 0>,
}

/// The fields of [`OtherName`] as one type, in the order in which they are encoded.
pub type OtherNameFields<'a> = (ObjectIdentifierRef<'a>, ExplicitAny<'a, 0>);

impl<'a> FromFields<OtherNameFields<'a>> for OtherName<'a> {
    ghost fields = { λ v. (v.type_id, v.value) };

    fn from_fields(fields: OtherNameFields<'a>) -> Self {
        let (type_id, value) = fields;
        OtherName { type_id, value }
    }
}

impl<'a> Sequence for OtherName<'a> {
    ghost meaning = { sequence (two_fields (field (alternative
        ⟦<ObjectIdentifierRef<'a> as Described>⟧.element)) (field (alternative
        ⟦<ExplicitAny<'a, 0> as Described>⟧.element)))
        ⟦<OtherName<'a> as FromFields<OtherNameFields<'a>>>⟧.fields };

    ghost fits = { (refl, refl) };
}

/// Decodes the fields, first to last. The errors are those that [`Sequence`] lists.
impl<'a, R: Lends<Borrowed = &'a [u8]>> DecodeValue<R> for OtherName<'a> {
    type Error = Error;

    ghost decode_value_answers = { λ h s result t.
        ⟦<OtherNameFields<'a> as Decode<SliceReader<'a>>>⟧.decode_answers s (map_ok
        ⟦<OtherName<'a> as FromFields<OtherNameFields<'a>>>⟧.fields result) t };

    fn decode_value(alloc: Global, reader: &mut R, header: Header) -> Result<Self, Error>
    where
        R: Reader,
    {
        decode_sequence::<R, OtherNameFields<'a>, Self>(alloc, reader, header)
    }
}

impl<'a> IsValue for OtherName<'a> {
    fn is_value(&self) {
        self.type_id.is_value();
        self.value.is_value();
    }
}

/// Writes the fields, first to last. The errors are those that [`Sequence`] lists.
impl<'a> HasFields for OtherName<'a> {
    ghost fields_size = { λ v. ⟦<OtherNameFields<'a> as Encode>⟧.size
        (⟦<OtherName<'a> as FromFields<OtherNameFields<'a>>>⟧.fields v) };

    ghost fields_answers = { λ v. ⟦<OtherNameFields<'a> as Encode>⟧.encode_answers
        (⟦<OtherName<'a> as FromFields<OtherNameFields<'a>>>⟧.fields v) };

    fn call_fields<S, C: FieldsCall<S>>(
        &self,
        call: &C,
        state: &mut S,
        buf: &mut [u8],
    ) -> C::Output {
        call.call(&field_refs!(self, (type_id, value)), state, buf)
    }
}

impl<'a> Item for OtherName<'a> {
    ghost item = { sequence_item ⟦<OtherName<'a> as Described>⟧.element };
}

impl<'a> LawfulItem for OtherName<'a> {
    ghost is_lawful_item = { is_lawful_item ⟦<OtherName<'a> as Described>⟧.element refl };
}
