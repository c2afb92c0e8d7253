//! Written by asn1_compile from the module X509: change the module instead.
//!
//! Extension.
ghost use Rattle.std.specs.Prelude.{◌≡◌};
ghost use Rattle.std.proofs.Common.{refl};
ghost use Rattle.der.specs.Prelude.{map_ok};
ghost use Rattle.der_asn1.specs.Meaning.{alternative, defaulted, field, is_lawful_item, sequence, sequence_item};
ghost use Rattle.der_asn1.specs.TupleFields.{three_fields};

use der::{
    Decode, DecodeValue, Encode, Error, FieldsCall, FromFields, HasFields, Header, IsValue, Lends,
    Reader, Sequence, SliceReader, decode_sequence, field_refs,
};
use der_asn1::{
    BooleanRef, DefaultValue, Defaulted, Described, Item, LawfulItem, ObjectIdentifierRef,
    OctetStringRef,
};
use std::alloc::Global;

/// An extension (RFC 5280, 4.1 and 4.2), borrowed from the input.
#[derive(Clone, Copy, Debug, Drop, PartialEq, Eq)]
pub struct Extension<'a> {
    /// The type of the extension, as an object identifier.
    pub extn_id: ObjectIdentifierRef<'a>,
    /// Whether an application that does not know the extension must reject the certificate. The
    /// default is false.
    pub critical: Defaulted<BooleanRef<'a>>,
    /// The encoding of the extension's value, which is not checked.
    pub extn_value: OctetStringRef<'a>,
}

/// The fields of [`Extension`] as one type, in the order in which they are encoded.
pub type ExtensionFields<'a> = (
    ObjectIdentifierRef<'a>,
    Defaulted<BooleanRef<'a>>,
    OctetStringRef<'a>,
);

impl<'a> FromFields<ExtensionFields<'a>> for Extension<'a> {
    ghost fields = { λ v. (v.extn_id, v.critical, v.extn_value) };

    fn from_fields(fields: ExtensionFields<'a>) -> Self {
        let (extn_id, critical, extn_value) = fields;
        Extension {
            extn_id,
            critical,
            extn_value,
        }
    }
}

impl<'a> Sequence for Extension<'a> {
    ghost meaning = { sequence (three_fields (field (alternative
        ⟦<ObjectIdentifierRef<'a> as Described>⟧.element)) (defaulted
        ⟦<BooleanRef<'a> as DefaultValue>⟧.is_default (alternative
        ⟦<BooleanRef<'a> as Described>⟧.element)) (field (alternative
        ⟦<OctetStringRef<'a> as Described>⟧.element)))
        ⟦<Extension<'a> as FromFields<ExtensionFields<'a>>>⟧.fields };

    ghost fits = { (refl, refl) };
}

/// Decodes the fields, first to last. The errors are those that [`Sequence`] lists.
impl<'a, R: Lends<Borrowed = &'a [u8]>> DecodeValue<R> for Extension<'a> {
    type Error = Error;

    ghost decode_value_answers = { λ h s result t.
        ⟦<ExtensionFields<'a> as Decode<SliceReader<'a>>>⟧.decode_answers s (map_ok
        ⟦<Extension<'a> as FromFields<ExtensionFields<'a>>>⟧.fields result) t };

    fn decode_value(alloc: Global, reader: &mut R, header: Header) -> Result<Self, Error>
    where
        R: Reader,
    {
        decode_sequence::<R, ExtensionFields<'a>, Self>(alloc, reader, header)
    }
}

impl<'a> IsValue for Extension<'a> {
    fn is_value(&self) {
        self.extn_id.is_value();
        self.critical.0.is_value();
        self.extn_value.is_value();
    }
}

/// Writes the fields, first to last. The errors are those that [`Sequence`] lists.
impl<'a> HasFields for Extension<'a> {
    ghost fields_size = { λ v. ⟦<ExtensionFields<'a> as Encode>⟧.size
        (⟦<Extension<'a> as FromFields<ExtensionFields<'a>>>⟧.fields v) };

    ghost fields_answers = { λ v. ⟦<ExtensionFields<'a> as Encode>⟧.encode_answers
        (⟦<Extension<'a> as FromFields<ExtensionFields<'a>>>⟧.fields v) };

    fn call_fields<S, C: FieldsCall<S>>(
        &self,
        call: &C,
        state: &mut S,
        buf: &mut [u8],
    ) -> C::Output {
        call.call(
            &field_refs!(self, (extn_id, critical, extn_value)),
            state,
            buf,
        )
    }
}

impl<'a> Item for Extension<'a> {
    ghost item = { sequence_item ⟦<Extension<'a> as Described>⟧.element };
}

impl<'a> LawfulItem for Extension<'a> {
    ghost is_lawful_item = { is_lawful_item ⟦<Extension<'a> as Described>⟧.element refl };
}
