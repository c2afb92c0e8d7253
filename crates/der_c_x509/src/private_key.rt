//! Reading private keys.
ghost use Rattle.std.specs.Prelude.{◌≡◌, false, [], MatchOption};
ghost use Rattle.x509.specs.Find.{WholeRead};
ghost use Rattle.der_c_x509.specs.Calls.{ReadsWhole};
ghost use Rattle.der_c_x509.specs.PrivateKey.{IsPrivateKeyOf, version_number};

use crate::algorithm::{DerAlgorithm, algorithm_of};
use crate::certificate::optional_bits_of;
use crate::strings::span_of;
use der::{DecodeValue, FixedTag, ReadValue, SliceReader, WrittenValue};
use der_asn1::{Implicit, Optional, lawful_from_der};
use der_c_core::{DerBits, DerError, DerSpan, located_in};
use pkcs8::{PrivateKeyAttributes, PrivateKeyInfo, Version};
use std::alloc::Global;

/// A private key with its algorithm (PKCS #8; RFC 5958, 2). All octets are borrowed from the input.
#[repr(C)]
#[derive(Clone, Copy)]
pub struct DerPrivateKey<'a> {
    /// The algorithm of the key.
    pub algorithm: DerAlgorithm<'a>,
    /// The contents octets of the OCTET STRING that holds the private key. The algorithm determines
    /// their format, which is not checked.
    pub key: DerSpan<'a>,
    /// The contents octets of the SET of attributes. Empty if the attributes are absent.
    pub attributes: DerSpan<'a>,
    /// The public key that belongs to the private key. It has no bits if it is absent. It is not
    /// checked that the two keys belong together.
    pub public_key: DerBits<'a>,
    /// The version of the format: 1 or 2.
    pub version: u8,
    /// Whether the attributes are present.
    pub has_attributes: bool,
    /// Whether the public key is present. RFC 5958 allows a public key only in version 2. This is
    /// not checked.
    pub has_public_key: bool,
}

impl DerPrivateKey<'_> {
    /// The value of a private key before it is read: all fields are empty, 0 or false.
    pub const EMPTY: DerPrivateKey<'static> = DerPrivateKey {
        algorithm: DerAlgorithm::EMPTY,
        key: DerSpan::EMPTY,
        attributes: DerSpan::EMPTY,
        public_key: DerBits::EMPTY,
        version: 0,
        has_attributes: false,
        has_public_key: false,
    };
}

// The number of a version.
fn number_of(version: Version) -> u8
    ensures { result ≡ version_number version }
{
    match version {
        Version::V1 => 1,
        Version::V2 => 2,
    }
}

// The contents of a set of attributes, or no octets.
fn attributes_of<'a>(value: &Optional<Implicit<PrivateKeyAttributes<'a>, 0>>) -> DerSpan<'a>
    ensures { MatchOption value.now.0 (result.octets.now ≡ [])
        (λ a. result.octets.now ≡ a.0.elements.octets.now) }
{
    match &value.0 {
        Some(value) => DerSpan {
            octets: value.0.octets(),
        },
        None => DerSpan::EMPTY,
    }
}

// A private key as a struct of C.
fn private_key_of<'a>(value: &PrivateKeyInfo<'a>) -> DerPrivateKey<'a>
    ensures { IsPrivateKeyOf value.now result }
{
    DerPrivateKey {
        algorithm: algorithm_of(&value.private_key_algorithm),
        key: span_of(&value.private_key),
        attributes: attributes_of(&value.attributes),
        public_key: optional_bits_of(&value.public_key),
        version: number_of(value.version.item()),
        has_attributes: value.attributes.0.is_some(),
        has_public_key: value.public_key.0.is_some(),
    }
}

/// Reads a private key and its algorithm into `key`. `octets` must be the DER encoding of one
/// PrivateKeyInfo. RFC 5958, 2, also calls this type OneAsymmetricKey.
///
/// A call that fails leaves `key` unchanged. Fails with:
///
/// - `Overflow` without a position, if there are more than 4294967295 octets;
/// - the error of decoding, if `octets` do not begin with a private key. Its position, if it has
///   one, is counted from the start of `octets`;
/// - `TrailingData`, if octets follow the key.
///
/// The errors are the same as of `pkcs8::PrivateKeyInfo::from_der`, with one exception. If the
/// contents of the outermost element are cut, the error is `Incomplete` at the start of these
/// contents, and its `first` is the position at which they would end.
pub fn der_private_key_read<'a>(
    alloc: Global,
    octets: &'a [u8],
    key: &mut DerPrivateKey<'a>,
) -> DerError
    ensures { ReadsWhole (WholeRead ⟦<PrivateKeyInfo<'a> as FixedTag>⟧.tag_is
        ⟦<PrivateKeyInfo<'a> as ReadValue>⟧.valid ⟦<PrivateKeyInfo<'a> as WrittenValue>⟧.contents
        false ⟦<PrivateKeyInfo<'a> as DecodeValue<SliceReader<'a>>>⟧.decode_value_answers)
        IsPrivateKeyOf octets.now result key.old key.new }
{
    match lawful_from_der::<PrivateKeyInfo<'a>>(alloc, octets) {
        Ok(value) => {
            *key = private_key_of(&value);
            DerError::NONE
        }
        Err(error) => located_in(octets, error),
    }
}
