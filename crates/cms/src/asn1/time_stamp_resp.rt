//! Written by asn1_compile from the module CMS: change the module instead.
//!
//! TimeStampResp.
ghost use Rattle.std.specs.Prelude.{◌≡◌};
ghost use Rattle.std.proofs.Common.{refl};
ghost use Rattle.der.specs.Prelude.{map_ok};
ghost use Rattle.der_asn1.specs.Meaning.{alternative, field, is_lawful_item, optional, sequence, sequence_item, two_fields};

use crate::asn1::pki_status_info::PkiStatusInfo;
use crate::asn1::time_stamp_token::TimeStampToken;
use der::{
    Decode, DecodeValue, Encode, Error, FieldsCall, FromFields, HasFields, Header, IsValue, Lends,
    Reader, Sequence, SliceReader, decode_sequence, field_refs,
};
use der_asn1::{Described, Item, LawfulItem, Optional};
use std::alloc::Global;

/// A response to a request for a timestamp (RFC 3161, 2.4.2), borrowed from the input.
#[derive(Clone, Copy, Debug, Drop, PartialEq, Eq)]
pub struct TimeStampResp<'a> {
    /// Whether there is a timestamp, or why there is none.
    pub status: PkiStatusInfo<'a>,
    /// The timestamp, if present. It is there exactly if the status is granted or grantedWithMods,
    /// but decoding does not check this.
    pub time_stamp_token: Optional<TimeStampToken<'a>>,
}

/// The fields of [`TimeStampResp`] as one type, in the order in which they are encoded.
pub type TimeStampRespFields<'a> = (PkiStatusInfo<'a>, Optional<TimeStampToken<'a>>);

impl<'a> FromFields<TimeStampRespFields<'a>> for TimeStampResp<'a> {
    ghost fields = { λ v. (v.status, v.time_stamp_token) };

    fn from_fields(fields: TimeStampRespFields<'a>) -> Self {
        let (status, time_stamp_token) = fields;
        TimeStampResp {
            status,
            time_stamp_token,
        }
    }
}

impl<'a> Sequence for TimeStampResp<'a> {
    ghost meaning = { sequence (two_fields (field (alternative
        ⟦<PkiStatusInfo<'a> as Described>⟧.element)) (optional (alternative
        ⟦<TimeStampToken<'a> as Described>⟧.element)))
        ⟦<TimeStampResp<'a> as FromFields<TimeStampRespFields<'a>>>⟧.fields };

    ghost fits = { (refl, refl) };
}

/// Decodes the fields, first to last. The errors are those that [`Sequence`] lists.
impl<'a, R: Lends<Borrowed = &'a [u8]>> DecodeValue<R> for TimeStampResp<'a> {
    type Error = Error;

    ghost decode_value_answers = { λ h s result t.
        ⟦<TimeStampRespFields<'a> as Decode<SliceReader<'a>>>⟧.decode_answers s (map_ok
        ⟦<TimeStampResp<'a> as FromFields<TimeStampRespFields<'a>>>⟧.fields result) t };

    fn decode_value(alloc: Global, reader: &mut R, header: Header) -> Result<Self, Error>
    where
        R: Reader,
    {
        decode_sequence::<R, TimeStampRespFields<'a>, Self>(alloc, reader, header)
    }
}

impl<'a> IsValue for TimeStampResp<'a> {
    fn is_value(&self) {
        self.status.is_value();
        if let Some(value) = &self.time_stamp_token.0 {
            value.is_value();
        }
    }
}

/// Writes the fields, first to last. The errors are those that [`Sequence`] lists.
impl<'a> HasFields for TimeStampResp<'a> {
    ghost fields_size = { λ v. ⟦<TimeStampRespFields<'a> as Encode>⟧.size
        (⟦<TimeStampResp<'a> as FromFields<TimeStampRespFields<'a>>>⟧.fields v) };

    ghost fields_answers = { λ v. ⟦<TimeStampRespFields<'a> as Encode>⟧.encode_answers
        (⟦<TimeStampResp<'a> as FromFields<TimeStampRespFields<'a>>>⟧.fields v) };

    fn call_fields<S, C: FieldsCall<S>>(
        &self,
        call: &C,
        state: &mut S,
        buf: &mut [u8],
    ) -> C::Output {
        call.call(&field_refs!(self, (status, time_stamp_token)), state, buf)
    }
}

impl<'a> Item for TimeStampResp<'a> {
    ghost item = { sequence_item ⟦<TimeStampResp<'a> as Described>⟧.element };
}

impl<'a> LawfulItem for TimeStampResp<'a> {
    ghost is_lawful_item = { is_lawful_item ⟦<TimeStampResp<'a> as Described>⟧.element refl };
}
