//! Reading public keys.
ghost use Rattle.std.specs.Prelude.{◌≡◌, false};
ghost use Rattle.x509.specs.Find.{WholeRead};
ghost use Rattle.der_c_x509.specs.Fields.{IsPublicKeyOf};
ghost use Rattle.der_c_x509.specs.Calls.{ReadsWhole};

use crate::algorithm::{DerAlgorithm, algorithm_of};
use crate::strings::bits_of;
use der::{DecodeValue, Encode, FixedTag, ReadValue, SliceReader, WrittenValue};
use der_asn1::lawful_from_der;
use der_c_core::{DerBits, DerError, DerSpan, located_in};
use spki::SubjectPublicKeyInfoRef;
use std::alloc::Global;

/// A SubjectPublicKeyInfo (RFC 5280, 4.1.2.7): a public key with its algorithm.
#[repr(C)]
#[derive(Clone, Copy)]
pub struct DerPublicKey<'a> {
    /// The octets of the whole SubjectPublicKeyInfo, with its header.
    pub whole: DerSpan<'a>,
    /// The algorithm of the key.
    pub algorithm: DerAlgorithm<'a>,
    /// The key. The algorithm determines the format of its octets, which are not checked.
    pub key: DerBits<'a>,
}

impl DerPublicKey<'_> {
    /// The value of a public key before it is read: all fields are empty.
    pub const EMPTY: DerPublicKey<'static> = DerPublicKey {
        whole: DerSpan::EMPTY,
        algorithm: DerAlgorithm::EMPTY,
        key: DerBits::EMPTY,
    };
}

// A public key as a struct of C. `octets` are its encoding.
pub(crate) fn public_key_of<'a>(
    octets: &'a [u8],
    value: &SubjectPublicKeyInfoRef<'a>,
) -> DerPublicKey<'a>
    requires { octets.now ≡ ⟦<SubjectPublicKeyInfoRef<'a> as Encode>⟧.encoding value.now }
    ensures { IsPublicKeyOf ⟦<SubjectPublicKeyInfoRef<'a> as Encode>⟧.encoding value.now result }
{
    DerPublicKey {
        whole: DerSpan { octets },
        algorithm: algorithm_of(&value.algorithm),
        key: bits_of(&value.subject_public_key),
    }
}

/// Reads a public key with its algorithm into `key`. `octets` must be the DER encoding of one
/// SubjectPublicKeyInfo (RFC 5280, 4.1.2.7).
///
/// A call that fails leaves `key` unchanged. Fails with:
///
/// - `Overflow` without a position, if there are more than 4294967295 octets;
/// - the error of decoding, if `octets` do not begin with a public key. Its position, if it has
///   one, is counted from the start of `octets`;
/// - `TrailingData`, if octets follow the key.
///
/// The errors are the same as of `spki::SubjectPublicKeyInfoRef::from_der`, with one exception. If
/// the contents of the outermost element are cut, the error is `Incomplete` at the start of these
/// contents, and its `first` is the position at which they would end.
pub fn der_public_key_read<'a>(
    alloc: Global,
    octets: &'a [u8],
    key: &mut DerPublicKey<'a>,
) -> DerError
    ensures { ReadsWhole (WholeRead ⟦<SubjectPublicKeyInfoRef<'a> as FixedTag>⟧.tag_is
        ⟦<SubjectPublicKeyInfoRef<'a> as ReadValue>⟧.valid
        ⟦<SubjectPublicKeyInfoRef<'a> as WrittenValue>⟧.contents false
        ⟦<SubjectPublicKeyInfoRef<'a> as DecodeValue<SliceReader<'a>>>⟧.decode_value_answers)
        (IsPublicKeyOf ⟦<SubjectPublicKeyInfoRef<'a> as Encode>⟧.encoding) octets.now result key.old
        key.new }
{
    match lawful_from_der::<SubjectPublicKeyInfoRef<'a>>(alloc, octets) {
        Ok(value) => {
            *key = public_key_of(octets, &value);
            DerError::NONE
        }
        Err(error) => located_in(octets, error),
    }
}
