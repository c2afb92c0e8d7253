//! Written by asn1_compile from the module OCSP: change the module instead.
//!
//! PreferredSignatureAlgorithm.
ghost use Rattle.std.specs.Prelude.{◌≡◌};
ghost use Rattle.std.proofs.Common.{refl};
ghost use Rattle.der.specs.Prelude.{map_ok};
ghost use Rattle.der_asn1.specs.Meaning.{alternative, field, is_lawful_item, optional, sequence, sequence_item, two_fields};

use der::{
    Decode, DecodeValue, Encode, Error, FieldsCall, FromFields, HasFields, Header, IsValue, Lends,
    Reader, Sequence, SliceReader, decode_sequence, field_refs,
};
use der_asn1::{Described, Item, LawfulItem, Optional};
use spki::AlgorithmIdentifierRef;
use std::alloc::Global;

/// A signature algorithm that a client prefers (RFC 6960, 4.4.7.1), borrowed from the input.
#[derive(Clone, Copy, Debug, Drop, PartialEq, Eq)]
pub struct PreferredSignatureAlgorithm<'a> {
    /// The signature algorithm.
    pub sig_identifier: AlgorithmIdentifierRef<'a>,
    /// The algorithm of the public key in the responder's certificate, if present. In 4.4.7.1 the
    /// RFC names the field pubKeyAlgIdentifier.
    pub cert_identifier: Optional<AlgorithmIdentifierRef<'a>>,
}

/// The fields of [`PreferredSignatureAlgorithm`] as one type, in the order in which they are encoded.
pub type PreferredSignatureAlgorithmFields<'a> = (
    AlgorithmIdentifierRef<'a>,
    Optional<AlgorithmIdentifierRef<'a>>,
);

impl<'a> FromFields<PreferredSignatureAlgorithmFields<'a>> for PreferredSignatureAlgorithm<'a> {
    ghost fields = { λ v. (v.sig_identifier, v.cert_identifier) };

    fn from_fields(fields: PreferredSignatureAlgorithmFields<'a>) -> Self {
        let (sig_identifier, cert_identifier) = fields;
        PreferredSignatureAlgorithm {
            sig_identifier,
            cert_identifier,
        }
    }
}

impl<'a> Sequence for PreferredSignatureAlgorithm<'a> {
    ghost meaning = { sequence (two_fields (field (alternative
        ⟦<AlgorithmIdentifierRef<'a> as Described>⟧.element)) (optional (alternative
        ⟦<AlgorithmIdentifierRef<'a> as Described>⟧.element)))
        ⟦<PreferredSignatureAlgorithm<'a> as FromFields<PreferredSignatureAlgorithmFields<'a>>>⟧.fields };

    ghost fits = { (refl, refl) };
}

/// Decodes the fields, first to last. The errors are those that [`Sequence`] lists.
impl<'a, R: Lends<Borrowed = &'a [u8]>> DecodeValue<R> for PreferredSignatureAlgorithm<'a> {
    type Error = Error;

    ghost decode_value_answers = { λ h s result t.
        ⟦<PreferredSignatureAlgorithmFields<'a> as Decode<SliceReader<'a>>>⟧.decode_answers s (map_ok
        ⟦<PreferredSignatureAlgorithm<'a> as FromFields<PreferredSignatureAlgorithmFields<'a>>>⟧.fields result) t };

    fn decode_value(alloc: Global, reader: &mut R, header: Header) -> Result<Self, Error>
    where
        R: Reader,
    {
        decode_sequence::<R, PreferredSignatureAlgorithmFields<'a>, Self>(alloc, reader, header)
    }
}

impl<'a> IsValue for PreferredSignatureAlgorithm<'a> {
    fn is_value(&self) {
        self.sig_identifier.is_value();
        if let Some(value) = &self.cert_identifier.0 {
            value.is_value();
        }
    }
}

/// Writes the fields, first to last. The errors are those that [`Sequence`] lists.
impl<'a> HasFields for PreferredSignatureAlgorithm<'a> {
    ghost fields_size = { λ v. ⟦<PreferredSignatureAlgorithmFields<'a> as Encode>⟧.size
        (⟦<PreferredSignatureAlgorithm<'a> as FromFields<PreferredSignatureAlgorithmFields<'a>>>⟧.fields v) };

    ghost fields_answers = { λ v. ⟦<PreferredSignatureAlgorithmFields<'a> as Encode>⟧.encode_answers
        (⟦<PreferredSignatureAlgorithm<'a> as FromFields<PreferredSignatureAlgorithmFields<'a>>>⟧.fields v) };

    fn call_fields<S, C: FieldsCall<S>>(
        &self,
        call: &C,
        state: &mut S,
        buf: &mut [u8],
    ) -> C::Output {
        call.call(
            &field_refs!(self, (sig_identifier, cert_identifier)),
            state,
            buf,
        )
    }
}

impl<'a> Item for PreferredSignatureAlgorithm<'a> {
    ghost item = { sequence_item ⟦<PreferredSignatureAlgorithm<'a> as Described>⟧.element };
}

impl<'a> LawfulItem for PreferredSignatureAlgorithm<'a> {
    ghost is_lawful_item = { is_lawful_item
        ⟦<PreferredSignatureAlgorithm<'a> as Described>⟧.element refl };
}
