//! The extensions keyUsage and basicConstraints, if their value may also be BER that is not DER.
ghost use Rattle.std.specs.Prelude.{◌≡◌};
ghost use Rattle.x509.specs.ExtensionIdentifiers.{id_ce};
ghost use Rattle.x509.specs.Lenient.{BerRead, FindsLenient, IsDerOf, SaysDerOf};
ghost use Rattle.der_c_x509.specs.FindCalls.{FindsIn, RefusesList};
ghost use Rattle.der_c_x509.specs.Known.{IsKeyUsageOf, first_bits};
ghost use Rattle.der_c_x509.specs.LenientCalls.{ReadsLenientConstraints, ReadsLenientUsage, is_der_of, known_of};

use crate::basic_constraints::{DerBasicConstraints, constraints_of};
use crate::find::c_answer;
use crate::key_usage::DerKeyUsage;
use der::{
    Decode, DecodeValue, Error, ErrorKind, FixedTag, ReadValue, SliceReader, Tag, WrittenValue,
};
use der_asn1::{BitStringRef, Item, NamedBitsRef, SequenceOf};
use der_c_core::{DerError, c_error};
use std::alloc::Global;
use x509::{
    BasicConstraints, Extension, Extensions, Known, Lenient, LenientExtension, ext, find_lenient,
};

// The extension of type `K` in the contents of a list of extensions, whose contents may be BER; `None` if no
// extension has this type.
fn find_in<'a, K: LenientExtension<'a>>(
    alloc: Global,
    extensions: &'a [u8],
) -> Result<Option<Lenient<K::Lenient>>, DerError>
where
    K::Value: DecodeValue<SliceReader<'a>, Error = Error>,
    K::Lenient: DecodeValue<SliceReader<'a>, Error = Error>,
    ensures { FindsIn (RefusesList ⟦<Extension<'a> as Decode<SliceReader<'a>>>⟧.decode_answers)
        (FindsLenient ⟦<Extension<'a> as Item>⟧.item.valid ⟦<Extension<'a> as Item>⟧.item.octets
        (BerRead K.Lenient.tag_is K.Lenient.takes K.Lenient.value_levels K.Lenient.allocates
        K.Lenient.decode_value_answers) (SaysDerOf K.Value.allocates
        (IsDerOf K.Value.tag_is K.Value.valid K.Value.contents)) K.id_octets) extensions.now result }
{
    match SequenceOf::<'a, Extension<'a>>::new(alloc, extensions) {
        Ok(items) => {
            let answer = find_lenient::<K>(alloc, &Extensions { items });
            c_answer(answer)
        }
        Err(error) => Err(c_error(error)),
    }
}

// The bits 0 to 15 as a number.
fn bits_of<'a>(found: &Lenient<BitStringRef<'a>>) -> u16
    ensures { result ≡ first_bits 16 found.now.value.octets.now }
{
    let mut bits: u16 = 0;
    for n in 0..16u32 {
        if found.has_bit(n) {
            bits += 1 << n;
        }
    }
    bits
}

// The extension as a struct of C.
fn usage_of<'a>(found: &Option<Lenient<BitStringRef<'a>>>) -> DerKeyUsage
    ensures { IsKeyUsageOf (λ v. v.octets.now) (known_of found.now) result }
{
    match found {
        Some(lenient) => DerKeyUsage {
            bits: bits_of(lenient),
            present: true,
            critical: lenient.critical,
        },
        None => DerKeyUsage::EMPTY,
    }
}

// Whether the contents of the extension are DER; true if it is absent.
fn flag_of<V: Copy>(found: &Option<Lenient<V>>) -> bool
    ensures { result ≡ is_der_of found.now }
{
    match found {
        Some(lenient) => lenient.is_der,
        None => true,
    }
}

// The extension without the flag.
fn known_of<V: Copy>(found: &Option<Lenient<V>>) -> Option<Known<V>>
    ensures { result ≡ known_of found.now }
{
    match found {
        Some(lenient) => Some(Known {
            critical: lenient.critical,
            value: lenient.value,
        }),
        None => None,
    }
}

/// Finds the extension keyUsage and reads it into `usage`, as `der_key_usage` does, but decodes its
/// value under BER. For example, the BIT STRING may have zero bits at its end. Sets `is_der` to
/// true if the value is DER or the extension is absent, and otherwise to false.
///
/// A call that fails leaves `usage` and `is_der` unchanged. Fails as `der_key_usage` does, except
/// that the error of decoding the value is the error under BER.
pub fn der_key_usage_lenient<'a>(
    alloc: Global,
    extensions: &'a [u8],
    usage: &mut DerKeyUsage,
    is_der: &mut bool,
) -> DerError
    ensures { ReadsLenientUsage (λ v. v.octets.now) (FindsIn
        (RefusesList ⟦<Extension<'a> as Decode<SliceReader<'a>>>⟧.decode_answers)
        (FindsLenient ⟦<Extension<'a> as Item>⟧.item.valid ⟦<Extension<'a> as Item>⟧.item.octets
        (BerRead ⟦<BitStringRef<'a> as FixedTag>⟧.tag_is ⟦<BitStringRef<'a> as ReadValue>⟧.takes
        ⟦<BitStringRef<'a> as ReadValue>⟧.value_levels ⟦<BitStringRef<'a> as ReadValue>⟧.allocates
        ⟦<BitStringRef<'a> as DecodeValue<SliceReader<'a>>>⟧.decode_value_answers)
        (SaysDerOf ⟦<NamedBitsRef<'a> as ReadValue>⟧.allocates
        (IsDerOf ⟦<NamedBitsRef<'a> as FixedTag>⟧.tag_is ⟦<NamedBitsRef<'a> as ReadValue>⟧.valid
        ⟦<NamedBitsRef<'a> as WrittenValue>⟧.contents)) (id_ce 15)) extensions.now) result usage.old
        usage.new is_der.old is_der.new }
{
    match find_in::<ext::KeyUsage>(alloc, extensions) {
        Ok(found) => {
            *usage = usage_of(&found);
            *is_der = flag_of(&found);
            DerError::NONE
        }
        Err(error) => error,
    }
}

/// Finds the extension basicConstraints and reads it into `constraints`, as `der_basic_constraints`
/// does, but decodes its value under BER. For example, a field with its default value may be
/// present. Sets `is_der` to true if the value is DER or the extension is absent, and otherwise to
/// false.
///
/// A call that fails leaves `constraints` and `is_der` unchanged. Fails as `der_basic_constraints`
/// does, except that the error of decoding the value is the error under BER.
pub fn der_basic_constraints_lenient<'a>(
    alloc: Global,
    extensions: &'a [u8],
    constraints: &mut DerBasicConstraints,
    is_der: &mut bool,
) -> DerError
    ensures { ReadsLenientConstraints (FindsIn
        (RefusesList ⟦<Extension<'a> as Decode<SliceReader<'a>>>⟧.decode_answers)
        (FindsLenient ⟦<Extension<'a> as Item>⟧.item.valid ⟦<Extension<'a> as Item>⟧.item.octets
        (BerRead ⟦<BasicConstraints<'a> as FixedTag>⟧.tag_is ⟦<BasicConstraints<'a> as ReadValue>⟧.takes
        ⟦<BasicConstraints<'a> as ReadValue>⟧.value_levels
        ⟦<BasicConstraints<'a> as ReadValue>⟧.allocates
        ⟦<BasicConstraints<'a> as DecodeValue<SliceReader<'a>>>⟧.decode_value_answers)
        (SaysDerOf ⟦<BasicConstraints<'a> as ReadValue>⟧.allocates
        (IsDerOf ⟦<BasicConstraints<'a> as FixedTag>⟧.tag_is
        ⟦<BasicConstraints<'a> as ReadValue>⟧.valid ⟦<BasicConstraints<'a> as WrittenValue>⟧.contents))
        (id_ce 19)) extensions.now) result constraints.old constraints.new is_der.old is_der.new }
{
    match find_in::<ext::BasicConstraints>(alloc, extensions) {
        Ok(found) => match constraints_of(&known_of(&found)) {
            Some(value) => {
                *constraints = value;
                *is_der = flag_of(&found);
                DerError::NONE
            }
            None => c_error(Tag::Integer.value_error().to_error()),
        },
        Err(error) => error,
    }
}
