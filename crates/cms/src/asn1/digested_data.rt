//! Written by asn1_compile from the module CMS: change the module instead.
//!
//! DigestedData.
ghost use Rattle.std.specs.Prelude.{◌≡◌};
ghost use Rattle.std.proofs.Common.{refl};
ghost use Rattle.der.specs.Prelude.{map_ok};
ghost use Rattle.der_asn1.specs.Meaning.{alternative, field, is_lawful_item, sequence, sequence_item};
ghost use Rattle.der_asn1.specs.TupleFields.{four_fields};

use crate::asn1::cms_version::CmsVersion;
use crate::asn1::encapsulated_content_info::EncapsulatedContentInfo;
use der::{
    Decode, DecodeValue, Encode, Error, FieldsCall, FromFields, HasFields, Header, IsValue, Lends,
    Reader, Sequence, SliceReader, decode_sequence, field_refs,
};
use der_asn1::{Described, Item, LawfulItem, OctetStringRef};
use spki::AlgorithmIdentifierRef;
use std::alloc::Global;

/// A content with its digest (RFC 5652, 7), borrowed from the input.
#[derive(Clone, Copy, Debug, Drop, PartialEq, Eq)]
pub struct DigestedData<'a> {
    /// The version: 0 if the content is of the type id-data, or else 2. Decoding does not check
    /// this.
    pub version: CmsVersion<'a>,
    /// The algorithm of the digest.
    pub digest_algorithm: AlgorithmIdentifierRef<'a>,
    /// The content that has the digest.
    pub encap_content_info: EncapsulatedContentInfo<'a>,
    /// The octets of the digest.
    pub digest: OctetStringRef<'a>,
}

/// The fields of [`DigestedData`] as one type, in the order in which they are encoded.
pub type DigestedDataFields<'a> = (
    CmsVersion<'a>,
    AlgorithmIdentifierRef<'a>,
    EncapsulatedContentInfo<'a>,
    OctetStringRef<'a>,
);

impl<'a> FromFields<DigestedDataFields<'a>> for DigestedData<'a> {
    ghost fields = { λ v. (v.version, v.digest_algorithm, v.encap_content_info, v.digest) };

    fn from_fields(fields: DigestedDataFields<'a>) -> Self {
        let (version, digest_algorithm, encap_content_info, digest) = fields;
        DigestedData {
            version,
            digest_algorithm,
            encap_content_info,
            digest,
        }
    }
}

impl<'a> Sequence for DigestedData<'a> {
    ghost meaning = { sequence (four_fields (field (alternative
        ⟦<CmsVersion<'a> as Described>⟧.element)) (field (alternative
        ⟦<AlgorithmIdentifierRef<'a> as Described>⟧.element)) (field (alternative
        ⟦<EncapsulatedContentInfo<'a> as Described>⟧.element)) (field (alternative
        ⟦<OctetStringRef<'a> as Described>⟧.element)))
        ⟦<DigestedData<'a> as FromFields<DigestedDataFields<'a>>>⟧.fields };

    ghost fits = { (refl, refl) };
}

/// Decodes the fields, first to last. The errors are those that [`Sequence`] lists.
impl<'a, R: Lends<Borrowed = &'a [u8]>> DecodeValue<R> for DigestedData<'a> {
    type Error = Error;

    ghost decode_value_answers = { λ h s result t.
        ⟦<DigestedDataFields<'a> as Decode<SliceReader<'a>>>⟧.decode_answers s (map_ok
        ⟦<DigestedData<'a> as FromFields<DigestedDataFields<'a>>>⟧.fields result) t };

    fn decode_value(alloc: Global, reader: &mut R, header: Header) -> Result<Self, Error>
    where
        R: Reader,
    {
        decode_sequence::<R, DigestedDataFields<'a>, Self>(alloc, reader, header)
    }
}

impl<'a> IsValue for DigestedData<'a> {
    fn is_value(&self) {
        self.version.is_value();
        self.digest_algorithm.is_value();
        self.encap_content_info.is_value();
        self.digest.is_value();
    }
}

/// Writes the fields, first to last. The errors are those that [`Sequence`] lists.
impl<'a> HasFields for DigestedData<'a> {
    ghost fields_size = { λ v. ⟦<DigestedDataFields<'a> as Encode>⟧.size
        (⟦<DigestedData<'a> as FromFields<DigestedDataFields<'a>>>⟧.fields v) };

    ghost fields_answers = { λ v. ⟦<DigestedDataFields<'a> as Encode>⟧.encode_answers
        (⟦<DigestedData<'a> as FromFields<DigestedDataFields<'a>>>⟧.fields v) };

    fn call_fields<S, C: FieldsCall<S>>(
        &self,
        call: &C,
        state: &mut S,
        buf: &mut [u8],
    ) -> C::Output {
        call.call(
            &field_refs!(
                self,
                (version, digest_algorithm, encap_content_info, digest)
            ),
            state,
            buf,
        )
    }
}

impl<'a> Item for DigestedData<'a> {
    ghost item = { sequence_item ⟦<DigestedData<'a> as Described>⟧.element };
}

impl<'a> LawfulItem for DigestedData<'a> {
    ghost is_lawful_item = { is_lawful_item ⟦<DigestedData<'a> as Described>⟧.element refl };
}
