//! Written by asn1_compile from the module OCSP: change the module instead.
//!
//! CrlId.
ghost use Rattle.std.specs.Prelude.{◌≡◌};
ghost use Rattle.std.proofs.Common.{refl};
ghost use Rattle.der.specs.Prelude.{map_ok};
ghost use Rattle.der_asn1.specs.Meaning.{alternative, is_lawful_item, optional, sequence, sequence_item};
ghost use Rattle.der_asn1.specs.TupleFields.{three_fields};

use der::{
    Decode, DecodeValue, Encode, Error, FieldsCall, FromFields, HasFields, Header, IsValue, Lends,
    Reader, Sequence, SliceReader, decode_sequence, field_refs,
};
use der_asn1::{
    Described, Explicit, GeneralizedTime, Ia5StringRef, IntRef, Item, LawfulItem, Optional,
};
use std::alloc::Global;

/// The revocation list on which a certificate is found (RFC 6960, 4.4.2), borrowed from the input.
#[derive(Clone, Copy, Debug, Drop, PartialEq, Eq)]
pub struct CrlId<'a> {
    /// The URL of the list, if present.
    pub crl_url: Optional<Explicit<Ia5StringRef<'a>, 0>>,
    /// The number of the list, if present.
    pub crl_num: Optional<Explicit<IntRef<'a>, 1>>,
    /// When the list was issued, if present.
    pub crl_time: Optional<Explicit<GeneralizedTime, 2>>,
}

/// The fields of [`CrlId`] as one type, in the order in which they are encoded.
pub type CrlIdFields<'a> = (
    Optional<Explicit<Ia5StringRef<'a>, 0>>,
    Optional<Explicit<IntRef<'a>, 1>>,
    Optional<Explicit<GeneralizedTime, 2>>,
);

impl<'a> FromFields<CrlIdFields<'a>> for CrlId<'a> {
    ghost fields = { λ v. (v.crl_url, v.crl_num, v.crl_time) };

    fn from_fields(fields: CrlIdFields<'a>) -> Self {
        let (crl_url, crl_num, crl_time) = fields;
        CrlId {
            crl_url,
            crl_num,
            crl_time,
        }
    }
}

impl<'a> Sequence for CrlId<'a> {
    ghost meaning = { sequence (three_fields (optional (alternative
        ⟦<Explicit<Ia5StringRef<'a>, 0> as Described>⟧.element)) (optional (alternative
        ⟦<Explicit<IntRef<'a>, 1> as Described>⟧.element)) (optional (alternative
        ⟦<Explicit<GeneralizedTime, 2> as Described>⟧.element)))
        ⟦<CrlId<'a> as FromFields<CrlIdFields<'a>>>⟧.fields };

    ghost fits = { (refl, refl) };
}

/// Decodes the fields, first to last. The errors are those that [`Sequence`] lists.
impl<'a, R: Lends<Borrowed = &'a [u8]>> DecodeValue<R> for CrlId<'a> {
    type Error = Error;

    ghost decode_value_answers = { λ h s result t.
        ⟦<CrlIdFields<'a> as Decode<SliceReader<'a>>>⟧.decode_answers s (map_ok
        ⟦<CrlId<'a> as FromFields<CrlIdFields<'a>>>⟧.fields result) t };

    fn decode_value(alloc: Global, reader: &mut R, header: Header) -> Result<Self, Error>
    where
        R: Reader,
    {
        decode_sequence::<R, CrlIdFields<'a>, Self>(alloc, reader, header)
    }
}

impl<'a> IsValue for CrlId<'a> {
    fn is_value(&self) {
        if let Some(value) = &self.crl_url.0 {
            value.is_value();
        }
        if let Some(value) = &self.crl_num.0 {
            value.is_value();
        }
        if let Some(value) = &self.crl_time.0 {
            value.is_value();
        }
    }
}

/// Writes the fields, first to last. The errors are those that [`Sequence`] lists.
impl<'a> HasFields for CrlId<'a> {
    ghost fields_size = { λ v. ⟦<CrlIdFields<'a> as Encode>⟧.size
        (⟦<CrlId<'a> as FromFields<CrlIdFields<'a>>>⟧.fields v) };

    ghost fields_answers = { λ v. ⟦<CrlIdFields<'a> as Encode>⟧.encode_answers
        (⟦<CrlId<'a> as FromFields<CrlIdFields<'a>>>⟧.fields v) };

    fn call_fields<S, C: FieldsCall<S>>(
        &self,
        call: &C,
        state: &mut S,
        buf: &mut [u8],
    ) -> C::Output {
        call.call(&field_refs!(self, (crl_url, crl_num, crl_time)), state, buf)
    }
}

impl<'a> Item for CrlId<'a> {
    ghost item = { sequence_item ⟦<CrlId<'a> as Described>⟧.element };
}

impl<'a> LawfulItem for CrlId<'a> {
    ghost is_lawful_item = { is_lawful_item ⟦<CrlId<'a> as Described>⟧.element refl };
}
