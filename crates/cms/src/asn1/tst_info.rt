//! Written by asn1_compile from the module CMS: change the module instead.
//!
//! TstInfo.
ghost use Rattle.std.specs.Prelude.{◌≡◌};
ghost use Rattle.std.proofs.Common.{refl};
ghost use Rattle.der.specs.Prelude.{map_ok};
ghost use Rattle.der_asn1.specs.Meaning.{alternative, defaulted, field, is_lawful_item, optional, sequence, sequence_item};
ghost use Rattle.der_asn1.specs.TupleFields.{ten_fields};

use crate::FractionalTimeRef;
use crate::asn1::accuracy::Accuracy;
use crate::asn1::general_name_tagged::GeneralNameTagged;
use crate::asn1::message_imprint::MessageImprint;
use crate::asn1::tsa_policy_id::TsaPolicyId;
use der::{
    Decode, DecodeValue, Encode, Error, FieldsCall, FromFields, HasFields, Header, IsValue, Lends,
    Reader, Sequence, SliceReader, decode_sequence, field_refs,
};
use der_asn1::{
    BooleanRef, DefaultValue, Defaulted, Described, Implicit, IntRef, Item, LawfulItem, Optional,
};
use std::alloc::Global;
use x509::Extensions;

/// The content of a timestamp (RFC 3161, 2.4.2), borrowed from the input.
#[derive(Clone, Copy, Debug, Drop, PartialEq, Eq)]
pub struct TstInfo<'a> {
    /// The version, which is 1. Decoding does not check this.
    pub version: IntRef<'a>,
    /// The policy under which the timestamp was made.
    pub policy: TsaPolicyId<'a>,
    /// The digest of the octets that are timestamped.
    pub message_imprint: MessageImprint<'a>,
    /// The serial number of the timestamp.
    pub serial_number: IntRef<'a>,
    /// When the timestamp was made. It may have a fraction of a second.
    pub gen_time: FractionalTimeRef<'a>,
    /// How far the time may be off, if present.
    pub accuracy: Optional<Accuracy<'a>>,
    /// Whether all timestamps of the authority can be ordered by their times alone. The default is
    /// false.
    pub ordering: Defaulted<BooleanRef<'a>>,
    /// The nonce of the request, if it has one.
    pub nonce: Optional<IntRef<'a>>,
    /// The name of the authority, if present.
    pub tsa: Optional<Implicit<GeneralNameTagged<'a>, 0>>,
    /// The extensions of the timestamp, if present.
    pub extensions: Optional<Implicit<Extensions<'a>, 1>>,
}

/// The fields of [`TstInfo`] as one type, in the order in which they are encoded.
pub type TstInfoFields<'a> = (
    IntRef<'a>,
    TsaPolicyId<'a>,
    MessageImprint<'a>,
    IntRef<'a>,
    FractionalTimeRef<'a>,
    Optional<Accuracy<'a>>,
    Defaulted<BooleanRef<'a>>,
    Optional<IntRef<'a>>,
    Optional<Implicit<GeneralNameTagged<'a>, 0>>,
    Optional<Implicit<Extensions<'a>, 1>>,
);

impl<'a> FromFields<TstInfoFields<'a>> for TstInfo<'a> {
    ghost fields = { λ v. (
      v.version,
      v.policy,
      v.message_imprint,
      v.serial_number,
      v.gen_time,
      v.accuracy,
      v.ordering,
      v.nonce,
      v.tsa,
      v.extensions,
    ) };

    fn from_fields(fields: TstInfoFields<'a>) -> Self {
        let (
            version,
            policy,
            message_imprint,
            serial_number,
            gen_time,
            accuracy,
            ordering,
            nonce,
            tsa,
            extensions,
        ) = fields;
        TstInfo {
            version,
            policy,
            message_imprint,
            serial_number,
            gen_time,
            accuracy,
            ordering,
            nonce,
            tsa,
            extensions,
        }
    }
}

impl<'a> Sequence for TstInfo<'a> {
    ghost meaning = { sequence (ten_fields (field (alternative ⟦<IntRef<'a> as Described>⟧.element))
        (field (alternative ⟦<TsaPolicyId<'a> as Described>⟧.element)) (field (alternative
        ⟦<MessageImprint<'a> as Described>⟧.element)) (field (alternative
        ⟦<IntRef<'a> as Described>⟧.element)) (field (alternative
        ⟦<FractionalTimeRef<'a> as Described>⟧.element)) (optional (alternative
        ⟦<Accuracy<'a> as Described>⟧.element)) (defaulted
        ⟦<BooleanRef<'a> as DefaultValue>⟧.is_default (alternative
        ⟦<BooleanRef<'a> as Described>⟧.element)) (optional (alternative
        ⟦<IntRef<'a> as Described>⟧.element)) (optional (alternative
        ⟦<Implicit<GeneralNameTagged<'a>, 0> as Described>⟧.element)) (optional (alternative
        ⟦<Implicit<Extensions<'a>, 1> as Described>⟧.element)))
        ⟦<TstInfo<'a> as FromFields<TstInfoFields<'a>>>⟧.fields };

    ghost fits = { (refl, refl) };
}

/// Decodes the fields, first to last. The errors are those that [`Sequence`] lists.
impl<'a, R: Lends<Borrowed = &'a [u8]>> DecodeValue<R> for TstInfo<'a> {
    type Error = Error;

    ghost decode_value_answers = { λ h s result t.
        ⟦<TstInfoFields<'a> as Decode<SliceReader<'a>>>⟧.decode_answers s (map_ok
        ⟦<TstInfo<'a> as FromFields<TstInfoFields<'a>>>⟧.fields result) t };

    fn decode_value(alloc: Global, reader: &mut R, header: Header) -> Result<Self, Error>
    where
        R: Reader,
    {
        decode_sequence::<R, TstInfoFields<'a>, Self>(alloc, reader, header)
    }
}

impl<'a> IsValue for TstInfo<'a> {
    fn is_value(&self) {
        self.version.is_value();
        self.policy.is_value();
        self.message_imprint.is_value();
        self.serial_number.is_value();
        self.gen_time.is_value();
        if let Some(value) = &self.accuracy.0 {
            value.is_value();
        }
        self.ordering.0.is_value();
        if let Some(value) = &self.nonce.0 {
            value.is_value();
        }
        if let Some(value) = &self.tsa.0 {
            value.is_value();
        }
        if let Some(value) = &self.extensions.0 {
            value.is_value();
        }
    }
}

/// Writes the fields, first to last. The errors are those that [`Sequence`] lists.
impl<'a> HasFields for TstInfo<'a> {
    ghost fields_size = { λ v. ⟦<TstInfoFields<'a> as Encode>⟧.size
        (⟦<TstInfo<'a> as FromFields<TstInfoFields<'a>>>⟧.fields v) };

    ghost fields_answers = { λ v. ⟦<TstInfoFields<'a> as Encode>⟧.encode_answers
        (⟦<TstInfo<'a> as FromFields<TstInfoFields<'a>>>⟧.fields v) };

    fn call_fields<S, C: FieldsCall<S>>(
        &self,
        call: &C,
        state: &mut S,
        buf: &mut [u8],
    ) -> C::Output {
        call.call(
            &field_refs!(
                self,
                (
                    version,
                    policy,
                    message_imprint,
                    serial_number,
                    gen_time,
                    accuracy,
                    ordering,
                    nonce,
                    tsa,
                    extensions
                )
            ),
            state,
            buf,
        )
    }
}

impl<'a> Item for TstInfo<'a> {
    ghost item = { sequence_item ⟦<TstInfo<'a> as Described>⟧.element };
}

impl<'a> LawfulItem for TstInfo<'a> {
    ghost is_lawful_item = { is_lawful_item ⟦<TstInfo<'a> as Described>⟧.element refl };
}
