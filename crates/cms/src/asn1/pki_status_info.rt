//! Written by asn1_compile from the module CMS: change the module instead.
//!
//! PkiStatusInfo.
ghost use Rattle.std.specs.Prelude.{◌≡◌};
ghost use Rattle.std.proofs.Common.{refl};
ghost use Rattle.der.specs.Prelude.{map_ok};
ghost use Rattle.der_asn1.specs.Meaning.{alternative, field, is_lawful_item, optional, sequence, sequence_item};
ghost use Rattle.der_asn1.specs.TupleFields.{three_fields};

use crate::asn1::pki_failure_info::PkiFailureInfo;
use crate::asn1::pki_status::PkiStatus;
use der::{
    Decode, DecodeValue, Encode, Error, FieldsCall, FromFields, HasFields, Header, IsValue, Lends,
    Reader, Sequence, SliceReader, decode_sequence, field_refs,
};
use der_asn1::{Described, Item, LawfulItem, NamedInteger, Optional, SequenceOf, Utf8StringRef};
use std::alloc::Global;

/// Whether a request was granted, or why it was not (RFC 3161, 2.4.2), borrowed from the input.
#[derive(Clone, Copy, Debug, Drop, PartialEq, Eq)]
pub struct PkiStatusInfo<'a> {
    /// Whether the request was granted.
    pub status: NamedInteger<PkiStatus>,
    /// The reason as texts, if present. That there is at least one is not checked.
    pub status_string: Optional<SequenceOf<'a, Utf8StringRef<'a>>>,
    /// The reason as named bits, if present.
    pub fail_info: Optional<PkiFailureInfo<'a>>,
}

/// The fields of [`PkiStatusInfo`] as one type, in the order in which they are encoded.
pub type PkiStatusInfoFields<'a> = (
    NamedInteger<PkiStatus>,
    Optional<SequenceOf<'a, Utf8StringRef<'a>>>,
    Optional<PkiFailureInfo<'a>>,
);

impl<'a> FromFields<PkiStatusInfoFields<'a>> for PkiStatusInfo<'a> {
    ghost fields = { λ v. (v.status, v.status_string, v.fail_info) };

    fn from_fields(fields: PkiStatusInfoFields<'a>) -> Self {
        let (status, status_string, fail_info) = fields;
        PkiStatusInfo {
            status,
            status_string,
            fail_info,
        }
    }
}

impl<'a> Sequence for PkiStatusInfo<'a> {
    ghost meaning = { sequence (three_fields (field (alternative
        ⟦<NamedInteger<PkiStatus> as Described>⟧.element)) (optional (alternative
        ⟦<SequenceOf<'a, Utf8StringRef<'a>> as Described>⟧.element)) (optional (alternative
        ⟦<PkiFailureInfo<'a> as Described>⟧.element)))
        ⟦<PkiStatusInfo<'a> as FromFields<PkiStatusInfoFields<'a>>>⟧.fields };

    ghost fits = { (refl, refl) };
}

/// Decodes the fields, first to last. The errors are those that [`Sequence`] lists.
impl<'a, R: Lends<Borrowed = &'a [u8]>> DecodeValue<R> for PkiStatusInfo<'a> {
    type Error = Error;

    ghost decode_value_answers = { λ h s result t.
        ⟦<PkiStatusInfoFields<'a> as Decode<SliceReader<'a>>>⟧.decode_answers s (map_ok
        ⟦<PkiStatusInfo<'a> as FromFields<PkiStatusInfoFields<'a>>>⟧.fields result) t };

    fn decode_value(alloc: Global, reader: &mut R, header: Header) -> Result<Self, Error>
    where
        R: Reader,
    {
        decode_sequence::<R, PkiStatusInfoFields<'a>, Self>(alloc, reader, header)
    }
}

impl<'a> IsValue for PkiStatusInfo<'a> {
    fn is_value(&self) {
        self.status.is_value();
        if let Some(value) = &self.status_string.0 {
            value.is_value();
        }
        if let Some(value) = &self.fail_info.0 {
            value.is_value();
        }
    }
}

/// Writes the fields, first to last. The errors are those that [`Sequence`] lists.
impl<'a> HasFields for PkiStatusInfo<'a> {
    ghost fields_size = { λ v. ⟦<PkiStatusInfoFields<'a> as Encode>⟧.size
        (⟦<PkiStatusInfo<'a> as FromFields<PkiStatusInfoFields<'a>>>⟧.fields v) };

    ghost fields_answers = { λ v. ⟦<PkiStatusInfoFields<'a> as Encode>⟧.encode_answers
        (⟦<PkiStatusInfo<'a> as FromFields<PkiStatusInfoFields<'a>>>⟧.fields v) };

    fn call_fields<S, C: FieldsCall<S>>(
        &self,
        call: &C,
        state: &mut S,
        buf: &mut [u8],
    ) -> C::Output {
        call.call(
            &field_refs!(self, (status, status_string, fail_info)),
            state,
            buf,
        )
    }
}

impl<'a> Item for PkiStatusInfo<'a> {
    ghost item = { sequence_item ⟦<PkiStatusInfo<'a> as Described>⟧.element };
}

impl<'a> LawfulItem for PkiStatusInfo<'a> {
    ghost is_lawful_item = { is_lawful_item ⟦<PkiStatusInfo<'a> as Described>⟧.element refl };
}
