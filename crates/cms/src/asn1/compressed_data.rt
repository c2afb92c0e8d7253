//! Written by asn1_compile from the module CMS: change the module instead.
//!
//! CompressedData.
ghost use Rattle.std.specs.Prelude.{◌≡◌};
ghost use Rattle.std.proofs.Common.{refl};
ghost use Rattle.der.specs.Prelude.{map_ok};
ghost use Rattle.der_asn1.specs.Meaning.{alternative, field, is_lawful_item, sequence, sequence_item};
ghost use Rattle.der_asn1.specs.TupleFields.{three_fields};

use crate::asn1::cms_version::CmsVersion;
use crate::asn1::encapsulated_content_info::EncapsulatedContentInfo;
use der::{
    Decode, DecodeValue, Encode, Error, FieldsCall, FromFields, HasFields, Header, IsValue, Lends,
    Reader, Sequence, SliceReader, decode_sequence, field_refs,
};
use der_asn1::{Described, Item, LawfulItem};
use spki::AlgorithmIdentifierRef;
use std::alloc::Global;

/// A compressed content (RFC 3274), borrowed from the input. Nothing is decompressed.
#[derive(Clone, Copy, Debug, Drop, PartialEq, Eq)]
pub struct CompressedData<'a> {
    /// The version, which is 0. Decoding does not check this.
    pub version: CmsVersion<'a>,
    /// The algorithm of the compression.
    pub compression_algorithm: AlgorithmIdentifierRef<'a>,
    /// The compressed content.
    pub encap_content_info: EncapsulatedContentInfo<'a>,
}

/// The fields of [`CompressedData`] as one type, in the order in which they are encoded.
pub type CompressedDataFields<'a> = (
    CmsVersion<'a>,
    AlgorithmIdentifierRef<'a>,
    EncapsulatedContentInfo<'a>,
);

impl<'a> FromFields<CompressedDataFields<'a>> for CompressedData<'a> {
    ghost fields = { λ v. (v.version, v.compression_algorithm, v.encap_content_info) };

    fn from_fields(fields: CompressedDataFields<'a>) -> Self {
        let (version, compression_algorithm, encap_content_info) = fields;
        CompressedData {
            version,
            compression_algorithm,
            encap_content_info,
        }
    }
}

impl<'a> Sequence for CompressedData<'a> {
    ghost meaning = { sequence (three_fields (field (alternative
        ⟦<CmsVersion<'a> as Described>⟧.element)) (field (alternative
        ⟦<AlgorithmIdentifierRef<'a> as Described>⟧.element)) (field (alternative
        ⟦<EncapsulatedContentInfo<'a> as Described>⟧.element)))
        ⟦<CompressedData<'a> as FromFields<CompressedDataFields<'a>>>⟧.fields };

    ghost fits = { (refl, refl) };
}

/// Decodes the fields, first to last. The errors are those that [`Sequence`] lists.
impl<'a, R: Lends<Borrowed = &'a [u8]>> DecodeValue<R> for CompressedData<'a> {
    type Error = Error;

    ghost decode_value_answers = { λ h s result t.
        ⟦<CompressedDataFields<'a> as Decode<SliceReader<'a>>>⟧.decode_answers s (map_ok
        ⟦<CompressedData<'a> as FromFields<CompressedDataFields<'a>>>⟧.fields result) t };

    fn decode_value(alloc: Global, reader: &mut R, header: Header) -> Result<Self, Error>
    where
        R: Reader,
    {
        decode_sequence::<R, CompressedDataFields<'a>, Self>(alloc, reader, header)
    }
}

impl<'a> IsValue for CompressedData<'a> {
    fn is_value(&self) {
        self.version.is_value();
        self.compression_algorithm.is_value();
        self.encap_content_info.is_value();
    }
}

/// Writes the fields, first to last. The errors are those that [`Sequence`] lists.
impl<'a> HasFields for CompressedData<'a> {
    ghost fields_size = { λ v. ⟦<CompressedDataFields<'a> as Encode>⟧.size
        (⟦<CompressedData<'a> as FromFields<CompressedDataFields<'a>>>⟧.fields v) };

    ghost fields_answers = { λ v. ⟦<CompressedDataFields<'a> as Encode>⟧.encode_answers
        (⟦<CompressedData<'a> as FromFields<CompressedDataFields<'a>>>⟧.fields v) };

    fn call_fields<S, C: FieldsCall<S>>(
        &self,
        call: &C,
        state: &mut S,
        buf: &mut [u8],
    ) -> C::Output {
        call.call(
            &field_refs!(self, (version, compression_algorithm, encap_content_info)),
            state,
            buf,
        )
    }
}

impl<'a> Item for CompressedData<'a> {
    ghost item = { sequence_item ⟦<CompressedData<'a> as Described>⟧.element };
}

impl<'a> LawfulItem for CompressedData<'a> {
    ghost is_lawful_item = { is_lawful_item ⟦<CompressedData<'a> as Described>⟧.element refl };
}
