//! Written by asn1_compile from the module PublicKeyInfo: change the module instead.
//!
//! AlgorithmIdentifierRef.
ghost use Rattle.std.specs.Prelude.{◌≡◌};
ghost use Rattle.std.proofs.Common.{refl};
ghost use Rattle.der.specs.Prelude.{map_ok};
ghost use Rattle.der_asn1.specs.Meaning.{alternative, any_element, field, is_lawful_item, optional, sequence, sequence_item, two_fields};

use der::{
    Decode, DecodeValue, Encode, Error, FieldsCall, FromFields, HasFields, Header, IsValue, Lends,
    Reader, Sequence, SliceReader, decode_sequence, field_refs,
};
use der_asn1::{AnyRef, Described, Item, LawfulItem, ObjectIdentifierRef, Optional};
use std::alloc::Global;

/// An algorithm with its parameters (RFC 5280, 4.1.1.2), borrowed from the input.
#[derive(Clone, Copy, Debug, Drop, PartialEq, Eq)]
pub struct AlgorithmIdentifierRef<'a> {
    /// The object identifier of the algorithm.
    pub oid: ObjectIdentifierRef<'a>,
    /// The parameters of the algorithm, of any type, if present.
    pub parameters: Optional<AnyRef<'a>>,
}

/// The fields of [`AlgorithmIdentifierRef`] as one type, in the order in which they are encoded.
pub type AlgorithmIdentifierRefFields<'a> = (ObjectIdentifierRef<'a>, Optional<AnyRef<'a>>);

impl<'a> FromFields<AlgorithmIdentifierRefFields<'a>> for AlgorithmIdentifierRef<'a> {
    ghost fields = { λ v. (v.oid, v.parameters) };

    fn from_fields(fields: AlgorithmIdentifierRefFields<'a>) -> Self {
        let (oid, parameters) = fields;
        AlgorithmIdentifierRef { oid, parameters }
    }
}

impl<'a> Sequence for AlgorithmIdentifierRef<'a> {
    ghost meaning = { sequence (two_fields (field (alternative
        ⟦<ObjectIdentifierRef<'a> as Described>⟧.element)) (optional any_element))
        ⟦<AlgorithmIdentifierRef<'a> as FromFields<AlgorithmIdentifierRefFields<'a>>>⟧.fields };

    ghost fits = { (refl, refl) };
}

/// Decodes the fields, first to last. The errors are those that [`Sequence`] lists.
impl<'a, R: Lends<Borrowed = &'a [u8]>> DecodeValue<R> for AlgorithmIdentifierRef<'a> {
    type Error = Error;

    ghost decode_value_answers = { λ h s result t.
        ⟦<AlgorithmIdentifierRefFields<'a> as Decode<SliceReader<'a>>>⟧.decode_answers s (map_ok
        ⟦<AlgorithmIdentifierRef<'a> as FromFields<AlgorithmIdentifierRefFields<'a>>>⟧.fields result) t };

    fn decode_value(alloc: Global, reader: &mut R, header: Header) -> Result<Self, Error>
    where
        R: Reader,
    {
        decode_sequence::<R, AlgorithmIdentifierRefFields<'a>, Self>(alloc, reader, header)
    }
}

impl<'a> IsValue for AlgorithmIdentifierRef<'a> {
    fn is_value(&self) {
        self.oid.is_value();
        if let Some(value) = &self.parameters.0 {
            value.is_value();
        }
    }
}

/// Writes the fields, first to last. The errors are those that [`Sequence`] lists.
impl<'a> HasFields for AlgorithmIdentifierRef<'a> {
    ghost fields_size = { λ v. ⟦<AlgorithmIdentifierRefFields<'a> as Encode>⟧.size
        (⟦<AlgorithmIdentifierRef<'a> as FromFields<AlgorithmIdentifierRefFields<'a>>>⟧.fields v) };

    ghost fields_answers = { λ v. ⟦<AlgorithmIdentifierRefFields<'a> as Encode>⟧.encode_answers
        (⟦<AlgorithmIdentifierRef<'a> as FromFields<AlgorithmIdentifierRefFields<'a>>>⟧.fields v) };

    fn call_fields<S, C: FieldsCall<S>>(
        &self,
        call: &C,
        state: &mut S,
        buf: &mut [u8],
    ) -> C::Output {
        call.call(&field_refs!(self, (oid, parameters)), state, buf)
    }
}

impl<'a> Item for AlgorithmIdentifierRef<'a> {
    ghost item = { sequence_item ⟦<AlgorithmIdentifierRef<'a> as Described>⟧.element };
}

impl<'a> LawfulItem for AlgorithmIdentifierRef<'a> {
    ghost is_lawful_item = { is_lawful_item
        ⟦<AlgorithmIdentifierRef<'a> as Described>⟧.element refl };
}
