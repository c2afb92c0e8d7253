//! Written by asn1_compile from the module PrivateKeys: change the module instead.
//!
//! PrivateKeyInfo.
ghost use Rattle.std.specs.Prelude.{◌≡◌};
ghost use Rattle.std.proofs.Common.{refl};
ghost use Rattle.der.specs.Prelude.{map_ok};
ghost use Rattle.der_asn1.specs.Meaning.{alternative, field, is_lawful_item, optional, sequence, sequence_item};
ghost use Rattle.der_asn1.specs.TupleFields.{five_fields};

use crate::asn1::private_key_attributes::PrivateKeyAttributes;
use crate::asn1::version::Version;
use der::{
    Decode, DecodeValue, Encode, Error, FieldsCall, FromFields, HasFields, Header, IsValue, Lends,
    Reader, Sequence, SliceReader, decode_sequence, field_refs,
};
use der_asn1::{
    BitStringRef, Described, Implicit, Item, LawfulItem, NamedInteger, OctetStringRef, Optional,
};
use spki::AlgorithmIdentifierRef;
use std::alloc::Global;

/// A private key with its algorithm (RFC 5958, 2, where it is OneAsymmetricKey), borrowed from the
/// input.
#[derive(Clone, Copy, Debug, Drop, PartialEq, Eq)]
pub struct PrivateKeyInfo<'a> {
    /// The version of the format, 1 or 2.
    pub version: NamedInteger<Version>,
    /// The algorithm of the key.
    pub private_key_algorithm: AlgorithmIdentifierRef<'a>,
    /// The octets of the private key, which are not checked. The algorithm of the key determines
    /// their format.
    pub private_key: OctetStringRef<'a>,
    /// Further information about the key, if present.
    pub attributes: Optional<Implicit<PrivateKeyAttributes<'a>, 0>>,
    /// The public key that belongs to the private key, if present. Only version 2 allows it, but
    /// decoding does not check this.
    pub public_key: Optional<Implicit<BitStringRef<'a>, 1>>,
}

/// The fields of [`PrivateKeyInfo`] as one type, in the order in which they are encoded.
pub type PrivateKeyInfoFields<'a> = (
    NamedInteger<Version>,
    AlgorithmIdentifierRef<'a>,
    OctetStringRef<'a>,
    Optional<Implicit<PrivateKeyAttributes<'a>, 0>>,
    Optional<Implicit<BitStringRef<'a>, 1>>,
);

impl<'a> FromFields<PrivateKeyInfoFields<'a>> for PrivateKeyInfo<'a> {
    ghost fields = { λ v. (
      v.version,
      v.private_key_algorithm,
      v.private_key,
      v.attributes,
      v.public_key,
    ) };

    fn from_fields(fields: PrivateKeyInfoFields<'a>) -> Self {
        let (version, private_key_algorithm, private_key, attributes, public_key) = fields;
        PrivateKeyInfo {
            version,
            private_key_algorithm,
            private_key,
            attributes,
            public_key,
        }
    }
}

impl<'a> Sequence for PrivateKeyInfo<'a> {
    ghost meaning = { sequence (five_fields (field (alternative
        ⟦<NamedInteger<Version> as Described>⟧.element)) (field (alternative
        ⟦<AlgorithmIdentifierRef<'a> as Described>⟧.element)) (field (alternative
        ⟦<OctetStringRef<'a> as Described>⟧.element)) (optional (alternative
        ⟦<Implicit<PrivateKeyAttributes<'a>, 0> as Described>⟧.element)) (optional (alternative
        ⟦<Implicit<BitStringRef<'a>, 1> as Described>⟧.element)))
        ⟦<PrivateKeyInfo<'a> as FromFields<PrivateKeyInfoFields<'a>>>⟧.fields };

    ghost fits = { (refl, refl) };
}

/// Decodes the fields, first to last. The errors are those that [`Sequence`] lists.
impl<'a, R: Lends<Borrowed = &'a [u8]>> DecodeValue<R> for PrivateKeyInfo<'a> {
    type Error = Error;

    ghost decode_value_answers = { λ h s result t.
        ⟦<PrivateKeyInfoFields<'a> as Decode<SliceReader<'a>>>⟧.decode_answers s (map_ok
        ⟦<PrivateKeyInfo<'a> as FromFields<PrivateKeyInfoFields<'a>>>⟧.fields result) t };

    fn decode_value(alloc: Global, reader: &mut R, header: Header) -> Result<Self, Error>
    where
        R: Reader,
    {
        decode_sequence::<R, PrivateKeyInfoFields<'a>, Self>(alloc, reader, header)
    }
}

impl<'a> IsValue for PrivateKeyInfo<'a> {
    fn is_value(&self) {
        self.version.is_value();
        self.private_key_algorithm.is_value();
        self.private_key.is_value();
        if let Some(value) = &self.attributes.0 {
            value.is_value();
        }
        if let Some(value) = &self.public_key.0 {
            value.is_value();
        }
    }
}

/// Writes the fields, first to last. The errors are those that [`Sequence`] lists.
impl<'a> HasFields for PrivateKeyInfo<'a> {
    ghost fields_size = { λ v. ⟦<PrivateKeyInfoFields<'a> as Encode>⟧.size
        (⟦<PrivateKeyInfo<'a> as FromFields<PrivateKeyInfoFields<'a>>>⟧.fields v) };

    ghost fields_answers = { λ v. ⟦<PrivateKeyInfoFields<'a> as Encode>⟧.encode_answers
        (⟦<PrivateKeyInfo<'a> as FromFields<PrivateKeyInfoFields<'a>>>⟧.fields v) };

    fn call_fields<S, C: FieldsCall<S>>(
        &self,
        call: &C,
        state: &mut S,
        buf: &mut [u8],
    ) -> C::Output {
        call.call(
            &field_refs!(
                self,
                (
                    version,
                    private_key_algorithm,
                    private_key,
                    attributes,
                    public_key
                )
            ),
            state,
            buf,
        )
    }
}

impl<'a> Item for PrivateKeyInfo<'a> {
    ghost item = { sequence_item ⟦<PrivateKeyInfo<'a> as Described>⟧.element };
}

impl<'a> LawfulItem for PrivateKeyInfo<'a> {
    ghost is_lawful_item = { is_lawful_item ⟦<PrivateKeyInfo<'a> as Described>⟧.element refl };
}
