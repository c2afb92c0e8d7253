//! Written by asn1_compile from the module OCSP: change the module instead.
//!
//! TbsRequest.
ghost use Rattle.std.specs.Prelude.{◌≡◌};
ghost use Rattle.std.proofs.Common.{refl};
ghost use Rattle.der.specs.Prelude.{map_ok};
ghost use Rattle.der_asn1.specs.Meaning.{alternative, defaulted, field, is_lawful_item, optional, sequence, sequence_item};
ghost use Rattle.der_asn1.specs.TupleFields.{four_fields};

use crate::asn1::general_name_tagged::GeneralNameTagged;
use crate::asn1::request::Request;
use der::{
    Decode, DecodeValue, Encode, Error, FieldsCall, FromFields, HasFields, Header, IsValue, Lends,
    Reader, Sequence, SliceReader, decode_sequence, field_refs,
};
use der_asn1::{
    DefaultU64, DefaultValue, Defaulted, Described, Explicit, Implicit, IntegerOf, Item,
    LawfulItem, Optional, SequenceOf, WithDefault,
};
use std::alloc::Global;
use x509::Extensions;

/// The part of a request that its signature covers (RFC 6960, 4.1.1), borrowed from the input.
#[derive(Clone, Copy, Debug, Drop, PartialEq, Eq)]
pub struct TbsRequest<'a> {
    /// The version. The default is version 1, whose number is 0. Decoding accepts every number from
    /// 0 to 2^64 - 1.
    pub version: Defaulted<Explicit<WithDefault<IntegerOf<u64>, DefaultU64<0>>, 0>>,
    /// The name of the requestor, if present.
    pub requestor_name: Optional<Implicit<GeneralNameTagged<'a>, 1>>,
    /// The certificates whose status is requested. That there is at least one is not checked.
    pub request_list: SequenceOf<'a, Request<'a>>,
    /// The extensions of the whole request, if present.
    pub request_extensions: Optional<Explicit<Extensions<'a>, 2>>,
}

/// The fields of [`TbsRequest`] as one type, in the order in which they are encoded.
pub type TbsRequestFields<'a> = (
    Defaulted<Explicit<WithDefault<IntegerOf<u64>, DefaultU64<0>>, 0>>,
    Optional<Implicit<GeneralNameTagged<'a>, 1>>,
    SequenceOf<'a, Request<'a>>,
    Optional<Explicit<Extensions<'a>, 2>>,
);

impl<'a> FromFields<TbsRequestFields<'a>> for TbsRequest<'a> {
    ghost fields = { λ v. (v.version, v.requestor_name, v.request_list, v.request_extensions) };

    fn from_fields(fields: TbsRequestFields<'a>) -> Self {
        let (version, requestor_name, request_list, request_extensions) = fields;
        TbsRequest {
            version,
            requestor_name,
            request_list,
            request_extensions,
        }
    }
}

impl<'a> Sequence for TbsRequest<'a> {
    ghost meaning = { sequence (four_fields (defaulted
        ⟦<Explicit<WithDefault<IntegerOf<u64>, DefaultU64<0>>, 0> as DefaultValue>⟧.is_default
        (alternative
        ⟦<Explicit<WithDefault<IntegerOf<u64>, DefaultU64<0>>, 0> as Described>⟧.element)) (optional
        (alternative ⟦<Implicit<GeneralNameTagged<'a>, 1> as Described>⟧.element)) (field
        (alternative ⟦<SequenceOf<'a, Request<'a>> as Described>⟧.element)) (optional (alternative
        ⟦<Explicit<Extensions<'a>, 2> as Described>⟧.element)))
        ⟦<TbsRequest<'a> as FromFields<TbsRequestFields<'a>>>⟧.fields };

    ghost fits = { (refl, refl) };
}

/// Decodes the fields, first to last. The errors are those that [`Sequence`] lists.
impl<'a, R: Lends<Borrowed = &'a [u8]>> DecodeValue<R> for TbsRequest<'a> {
    type Error = Error;

    ghost decode_value_answers = { λ h s result t.
        ⟦<TbsRequestFields<'a> as Decode<SliceReader<'a>>>⟧.decode_answers s (map_ok
        ⟦<TbsRequest<'a> as FromFields<TbsRequestFields<'a>>>⟧.fields result) t };

    fn decode_value(alloc: Global, reader: &mut R, header: Header) -> Result<Self, Error>
    where
        R: Reader,
    {
        decode_sequence::<R, TbsRequestFields<'a>, Self>(alloc, reader, header)
    }
}

impl<'a> IsValue for TbsRequest<'a> {
    fn is_value(&self) {
        self.version.0.is_value();
        if let Some(value) = &self.requestor_name.0 {
            value.is_value();
        }
        self.request_list.is_value();
        if let Some(value) = &self.request_extensions.0 {
            value.is_value();
        }
    }
}

/// Writes the fields, first to last. The errors are those that [`Sequence`] lists.
impl<'a> HasFields for TbsRequest<'a> {
    ghost fields_size = { λ v. ⟦<TbsRequestFields<'a> as Encode>⟧.size
        (⟦<TbsRequest<'a> as FromFields<TbsRequestFields<'a>>>⟧.fields v) };

    ghost fields_answers = { λ v. ⟦<TbsRequestFields<'a> as Encode>⟧.encode_answers
        (⟦<TbsRequest<'a> as FromFields<TbsRequestFields<'a>>>⟧.fields v) };

    fn call_fields<S, C: FieldsCall<S>>(
        &self,
        call: &C,
        state: &mut S,
        buf: &mut [u8],
    ) -> C::Output {
        call.call(
            &field_refs!(
                self,
                (version, requestor_name, request_list, request_extensions)
            ),
            state,
            buf,
        )
    }
}

impl<'a> Item for TbsRequest<'a> {
    ghost item = { sequence_item ⟦<TbsRequest<'a> as Described>⟧.element };
}

impl<'a> LawfulItem for TbsRequest<'a> {
    ghost is_lawful_item = { is_lawful_item ⟦<TbsRequest<'a> as Described>⟧.element refl };
}
