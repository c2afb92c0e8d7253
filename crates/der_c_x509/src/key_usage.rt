//! The extension keyUsage, which says what a key may be used for.
ghost use Rattle.std.specs.Prelude.{◌≡◌, ◌<◌, ◌^◌};
ghost use Rattle.der_asn1.specs.NamedBits.{has_bit};
ghost use Rattle.x509.specs.ExtensionIdentifiers.{id_ce};
ghost use Rattle.x509.specs.Find.{WholeRead};
ghost use Rattle.der_c_x509.specs.FindCalls.{FindsType, ReadsKnown, RefusesList};
ghost use Rattle.der_c_x509.specs.Known.{IsKeyUsageOf, first_bits};

use crate::find::find_known;
use der::{Decode, DecodeValue, FixedTag, ReadValue, SliceReader, WrittenValue};
use der_asn1::{Item, NamedBitsRef};
use der_c_core::DerError;
use std::alloc::Global;
use x509::{Extension, Known, ext};

/// The extension keyUsage (RFC 5280, 4.2.1.3).
#[repr(C)]
#[derive(Clone, Copy)]
pub struct DerKeyUsage {
    /// The bits of the extension. Bit n of the BIT STRING is `1 << n`, for n from 0 to 15. RFC 5280
    /// gives the bits 0 to 8 a meaning: `1 << 0` is digitalSignature, and `1 << 8` is decipherOnly.
    /// It is 0 if the extension is absent.
    pub bits: u16,
    /// Whether the list of extensions contains this extension.
    pub present: bool,
    /// Whether the extension is critical. False if the extension is absent.
    pub critical: bool,
}

impl DerKeyUsage {
    /// The value for an absent extension: all fields are empty, 0 or false.
    pub const EMPTY: DerKeyUsage = DerKeyUsage {
        bits: 0,
        present: false,
        critical: false,
    };
}

// The bits 0 to 15 as a number.
pub(crate) fn named_bits_of(usage: &NamedBitsRef<'_>) -> u16
    ensures { result ≡ first_bits 16 usage.now.octets.now }
{
    let mut bits: u16 = 0;
    for n in 0..16u32 {
        if usage.has_bit(n) {
            bits += 1 << n;
        }
    }
    bits
}

// The extension as a struct of C.
fn key_usage_of<'a>(found: &Option<Known<NamedBitsRef<'a>>>) -> DerKeyUsage
    ensures { IsKeyUsageOf (λ v. v.octets.now) found.now result }
{
    match found {
        Some(known) => DerKeyUsage {
            bits: named_bits_of(&known.value),
            present: true,
            critical: known.critical,
        },
        None => DerKeyUsage::EMPTY,
    }
}

/// Finds the extension keyUsage and reads it into `usage`. `extensions` are the contents octets of
/// a list of extensions. It is not an error if the extension is absent.
///
/// A call that fails leaves `usage` unchanged. Fails with:
///
/// - the error of decoding an extension, if the list has an extension that cannot be decoded. A
///   list that `der_certificate_read` has set has no such extension;
/// - `SetDuplicate` without a position, if the list has the extension more than once;
/// - the error of decoding the value of the extension, if the value cannot be decoded. The position
///   of the error is counted from the start of the value. If the contents of the value are cut, the
///   error is `Incomplete`, and its `first` is the position at which the value would end.
pub fn der_key_usage<'a>(alloc: Global, extensions: &'a [u8], usage: &mut DerKeyUsage) -> DerError
    ensures { ReadsKnown (FindsType (RefusesList
        ⟦<Extension<'a> as Decode<SliceReader<'a>>>⟧.decode_answers)
        ⟦<Extension<'a> as Item>⟧.item.valid ⟦<Extension<'a> as Item>⟧.item.octets (WholeRead
        ⟦<NamedBitsRef<'a> as FixedTag>⟧.tag_is ⟦<NamedBitsRef<'a> as ReadValue>⟧.valid
        ⟦<NamedBitsRef<'a> as WrittenValue>⟧.contents ⟦<NamedBitsRef<'a> as ReadValue>⟧.allocates
        ⟦<NamedBitsRef<'a> as DecodeValue<SliceReader<'a>>>⟧.decode_value_answers) (id_ce 15)
        extensions.now) (IsKeyUsageOf (λ v. v.octets.now)) result usage.old usage.new }
{
    match find_known::<ext::KeyUsage>(alloc, extensions) {
        Ok(found) => {
            *usage = key_usage_of(&found);
            DerError::NONE
        }
        Err(error) => error,
    }
}
