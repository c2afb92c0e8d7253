//! An example of a SEQUENCE inside another SEQUENCE, similar to the SubjectPublicKeyInfo in a
//! certificate.
ghost use Rattle.std.specs.Prelude.{◌≡◌, ◌<◌, ◌^◌, length, IfOk, IsOk};
ghost use Rattle.std.proofs.Common.{refl};
ghost use Rattle.der.specs.Prelude.{Sequence as SequenceTag, element_octets};
ghost use Rattle.example_calls.specs.KeyInfo.{IsKeyInfo, KeyInfoRead, key_info_contents, key_info_fields, key_info_element, key_info_size, KeyInfoWritten};

use crate::algorithm_identifier::AlgorithmIdentifier;
use crate::my_octets::MyOctets;
use der::{
    DecodeBytes, DecodeValue, Encode, Error, FieldsCall, FromFields, HasFields, Header, IsValue,
    Lends, Reader, Sequence, decode_sequence, field_refs,
};
use std::alloc::Global;

/// An example of a SEQUENCE: a key, and the algorithm that the key is for.
#[derive(Clone, Copy)]
pub struct KeyInfo<'a> {
    /// The algorithm that the key is for.
    pub algorithm: AlgorithmIdentifier<'a>,
    /// The key. In this example it is an OCTET STRING, which is borrowed from the input.
    pub key: MyOctets<'a>,
}

impl<'a> FromFields<(AlgorithmIdentifier<'a>, MyOctets<'a>)> for KeyInfo<'a> {
    ghost fields = { key_info_fields };

    fn from_fields((algorithm, key): (AlgorithmIdentifier<'a>, MyOctets<'a>)) -> Self {
        KeyInfo { algorithm, key }
    }
}

impl<'a> Sequence for KeyInfo<'a> {
    ghost meaning = { key_info_element };

    ghost fits = { (refl, refl) };
}

impl<'a> IsValue for KeyInfo<'a> {
    fn is_value(&self) {
        self.algorithm.is_value();
        self.key.is_value();
    }
}

impl<'a, R: Lends<Borrowed = &'a [u8]>> DecodeValue<R> for KeyInfo<'a> {
    type Error = Error;

    ghost decode_value_answers = { KeyInfoRead };

    fn decode_value(alloc: Global, reader: &mut R, header: Header) -> Result<Self, Error>
    where
        R: Reader,
    {
        decode_sequence::<R, (AlgorithmIdentifier<'a>, MyOctets<'a>), Self>(alloc, reader, header)
    }
}

impl<'a> HasFields for KeyInfo<'a> {
    ghost fields_size = { key_info_size };

    ghost fields_answers = { KeyInfoWritten };

    #[inline(always)]
    fn call_fields<S, C: FieldsCall<S>>(
        &self,
        call: &C,
        state: &mut S,
        buf: &mut [u8],
    ) -> C::Output {
        call.call(&field_refs!(self, (algorithm, key)), state, buf)
    }
}

/// Reads the octets as exactly one [`KeyInfo`] under DER.
pub fn key_info_from_der<'a>(alloc: Global, octets: &'a [u8]) -> Result<KeyInfo<'a>, Error>
    ensures ok { IfOk result (λ v. IsKeyInfo v
        × (octets.now ≡ element_octets SequenceTag (key_info_contents v))) }
    ensures complete { (v : _) → length octets.now < 2 ^ 32 → IsKeyInfo v
        → octets.now ≡ element_octets SequenceTag (key_info_contents v) → IsOk result }
{
    KeyInfo::from_der(alloc, octets)
}

/// Returns the encoding of a [`KeyInfo`] in a new vector.
pub fn key_info_der(alloc: Global, key: &KeyInfo<'_>) -> Result<Vec<u8>, Error>
    ensures { IfOk result (λ v. v.items ≡ element_octets SequenceTag (key_info_contents key.now)) }
{
    key.to_der(alloc)
}
