//! ESSCertIDv2 (RFC 5035, 4). Its first field, which may be absent, has the same tag as its last
//! field. The second field has another tag and is always present. So the first two fields are read
//! as a pair: the next tag decides whether the first field is present.
ghost use Rattle.std.specs.Prelude.{◌≡◌};
ghost use Rattle.std.proofs.Common.{refl};
ghost use Rattle.der.specs.Prelude.{map_ok};
ghost use Rattle.der_asn1.specs.DefaultedTo.{defaulted_to};
ghost use Rattle.der_asn1.specs.Meaning.{alternative, field, is_lawful_item, optional, sequence, sequence_item, two_fields};

use crate::asn1::IssuerSerial;
use crate::sha256_default::Sha256Default;
use der::{
    Decode, DecodeValue, Encode, Error, FieldsCall, FromFields, HasFields, Header, IsValue, Lends,
    Reader, Sequence, SliceReader, decode_sequence, field_refs,
};
use der_asn1::{DefaultOf, DefaultedTo, Described, Item, LawfulItem, OctetStringRef, Optional};
use spki::AlgorithmIdentifierRef;
use std::alloc::Global;

/// ESSCertIDv2 (RFC 5035, 4), borrowed from the input. It identifies a certificate by a hash, and
/// optionally also by the issuer and the serial number of the certificate.
#[derive(Drop)]
pub struct EssCertIdV2<'a> {
    /// The algorithm of the hash. The default is SHA-256 without parameters.
    pub hash_algorithm: DefaultedTo<AlgorithmIdentifierRef<'a>, Sha256Default>,
    /// The hash of the certificate. The number of its octets is not checked.
    pub cert_hash: OctetStringRef<'a>,
    /// The issuer and the serial number of the certificate, if present.
    pub issuer_serial: Optional<IssuerSerial<'a>>,
}

/// The fields of a [`EssCertIdV2`] in pairs, in the order in which they are encoded.
pub type EssCertIdV2Fields<'a> = (
    (
        DefaultedTo<AlgorithmIdentifierRef<'a>, Sha256Default>,
        OctetStringRef<'a>,
    ),
    Optional<IssuerSerial<'a>>,
);

impl<'a> FromFields<EssCertIdV2Fields<'a>> for EssCertIdV2<'a> {
    ghost fields = { λ v. ((v.hash_algorithm, v.cert_hash), v.issuer_serial) };

    fn from_fields(members: EssCertIdV2Fields<'a>) -> Self {
        let ((hash_algorithm, cert_hash), issuer_serial) = members;
        EssCertIdV2 {
            hash_algorithm,
            cert_hash,
            issuer_serial,
        }
    }
}

impl<'a> Sequence for EssCertIdV2<'a> {
    ghost meaning = { sequence (two_fields (two_fields (defaulted_to
        ⟦<Sha256Default as DefaultOf<AlgorithmIdentifierRef<'a>>>⟧.default_contents
        ⟦<AlgorithmIdentifierRef<'a> as Described>⟧.element (λ v. v.0)) (field (alternative
        ⟦<OctetStringRef<'a> as Described>⟧.element))) (optional (alternative
        ⟦<IssuerSerial<'a> as Described>⟧.element)))
        ⟦<EssCertIdV2<'a> as FromFields<EssCertIdV2Fields<'a>>>⟧.fields };

    ghost fits = { (refl, refl) };
}

/// Decodes the fields one after the other. The errors are those that [`Sequence`] lists.
impl<'a, R: Lends<Borrowed = &'a [u8]>> DecodeValue<R> for EssCertIdV2<'a> {
    type Error = Error;

    ghost decode_value_answers = { λ h s result t.
        ⟦<EssCertIdV2Fields<'a> as Decode<SliceReader<'a>>>⟧.decode_answers s (map_ok
        ⟦<EssCertIdV2<'a> as FromFields<EssCertIdV2Fields<'a>>>⟧.fields result) t };

    fn decode_value(alloc: Global, reader: &mut R, header: Header) -> Result<Self, Error>
    where
        R: Reader,
    {
        decode_sequence::<R, EssCertIdV2Fields<'a>, Self>(alloc, reader, header)
    }
}

impl<'a> IsValue for EssCertIdV2<'a> {
    fn is_value(&self) {
        self.hash_algorithm.0.is_value();
        self.cert_hash.is_value();
        if let Some(value) = &self.issuer_serial.0 {
            value.is_value();
        }
    }
}

/// Writes the fields one after the other. The errors are those that [`Sequence`] lists.
impl<'a> HasFields for EssCertIdV2<'a> {
    ghost fields_size = { λ v. ⟦<EssCertIdV2Fields<'a> as Encode>⟧.size
        (⟦<EssCertIdV2<'a> as FromFields<EssCertIdV2Fields<'a>>>⟧.fields v) };

    ghost fields_answers = { λ v. ⟦<EssCertIdV2Fields<'a> as Encode>⟧.encode_answers
        (⟦<EssCertIdV2<'a> as FromFields<EssCertIdV2Fields<'a>>>⟧.fields v) };

    fn call_fields<S, C: FieldsCall<S>>(
        &self,
        call: &C,
        state: &mut S,
        buf: &mut [u8],
    ) -> C::Output {
        call.call(
            &field_refs!(self, ((hash_algorithm, cert_hash), issuer_serial)),
            state,
            buf,
        )
    }
}

impl<'a> Item for EssCertIdV2<'a> {
    ghost item = { sequence_item ⟦<EssCertIdV2<'a> as Described>⟧.element };
}

impl<'a> LawfulItem for EssCertIdV2<'a> {
    ghost is_lawful_item = { is_lawful_item ⟦<EssCertIdV2<'a> as Described>⟧.element refl };
}
