//! Written by asn1_compile from the module KerberosV5Spec2: change the module instead.
//!
//! EncryptedData.
ghost use Rattle.std.specs.Prelude.{◌≡◌};
ghost use Rattle.std.proofs.Common.{refl};
ghost use Rattle.der.specs.Prelude.{map_ok};
ghost use Rattle.der_asn1.specs.Meaning.{alternative, field, is_lawful_item, optional, sequence, sequence_item};
ghost use Rattle.der_asn1.specs.TupleFields.{three_fields};

use crate::asn1::int32::Int32;
use crate::asn1::u_int32::UInt32;
use der::{
    Decode, DecodeValue, Encode, Error, FieldsCall, FromFields, HasFields, Header, IsValue, Lends,
    Reader, Sequence, SliceReader, decode_sequence, field_refs,
};
use der_asn1::{Described, Explicit, Item, LawfulItem, OctetStringRef, Optional};
use std::alloc::Global;

/// An encrypted value, with its algorithm and the version of its key (RFC 4120, 5.2.9).
#[derive(Clone, Copy, Debug, Drop, PartialEq, Eq)]
pub struct EncryptedData<'a> {
    /// The number of the encryption algorithm.
    pub etype: Explicit<Int32<'a>, 0>,
    /// The version number of the key, if present.
    pub kvno: Optional<Explicit<UInt32, 1>>,
    /// The encrypted octets.
    pub cipher: Explicit<OctetStringRef<'a>, 2>,
}

/// The fields of [`EncryptedData`] as one type, in the order in which they are encoded.
pub type EncryptedDataFields<'a> = (
    Explicit<Int32<'a>, 0>,
    Optional<Explicit<UInt32, 1>>,
    Explicit<OctetStringRef<'a>, 2>,
);

impl<'a> FromFields<EncryptedDataFields<'a>> for EncryptedData<'a> {
    ghost fields = { λ v. (v.etype, v.kvno, v.cipher) };

    fn from_fields(fields: EncryptedDataFields<'a>) -> Self {
        let (etype, kvno, cipher) = fields;
        EncryptedData {
            etype,
            kvno,
            cipher,
        }
    }
}

impl<'a> Sequence for EncryptedData<'a> {
    ghost meaning = { sequence (three_fields (field (alternative
        ⟦<Explicit<Int32<'a>, 0> as Described>⟧.element)) (optional (alternative
        ⟦<Explicit<UInt32, 1> as Described>⟧.element)) (field (alternative
        ⟦<Explicit<OctetStringRef<'a>, 2> as Described>⟧.element)))
        ⟦<EncryptedData<'a> as FromFields<EncryptedDataFields<'a>>>⟧.fields };

    ghost fits = { (refl, refl) };
}

/// Decodes the fields, first to last. The errors are those that [`Sequence`] lists.
impl<'a, R: Lends<Borrowed = &'a [u8]>> DecodeValue<R> for EncryptedData<'a> {
    type Error = Error;

    ghost decode_value_answers = { λ h s result t.
        ⟦<EncryptedDataFields<'a> as Decode<SliceReader<'a>>>⟧.decode_answers s (map_ok
        ⟦<EncryptedData<'a> as FromFields<EncryptedDataFields<'a>>>⟧.fields result) t };

    fn decode_value(alloc: Global, reader: &mut R, header: Header) -> Result<Self, Error>
    where
        R: Reader,
    {
        decode_sequence::<R, EncryptedDataFields<'a>, Self>(alloc, reader, header)
    }
}

impl<'a> IsValue for EncryptedData<'a> {
    fn is_value(&self) {
        self.etype.is_value();
        if let Some(value) = &self.kvno.0 {
            value.is_value();
        }
        self.cipher.is_value();
    }
}

/// Writes the fields, first to last. The errors are those that [`Sequence`] lists.
impl<'a> HasFields for EncryptedData<'a> {
    ghost fields_size = { λ v. ⟦<EncryptedDataFields<'a> as Encode>⟧.size
        (⟦<EncryptedData<'a> as FromFields<EncryptedDataFields<'a>>>⟧.fields v) };

    ghost fields_answers = { λ v. ⟦<EncryptedDataFields<'a> as Encode>⟧.encode_answers
        (⟦<EncryptedData<'a> as FromFields<EncryptedDataFields<'a>>>⟧.fields v) };

    fn call_fields<S, C: FieldsCall<S>>(
        &self,
        call: &C,
        state: &mut S,
        buf: &mut [u8],
    ) -> C::Output {
        call.call(&field_refs!(self, (etype, kvno, cipher)), state, buf)
    }
}

impl<'a> Item for EncryptedData<'a> {
    ghost item = { sequence_item ⟦<EncryptedData<'a> as Described>⟧.element };
}

impl<'a> LawfulItem for EncryptedData<'a> {
    ghost is_lawful_item = { is_lawful_item ⟦<EncryptedData<'a> as Described>⟧.element refl };
}
