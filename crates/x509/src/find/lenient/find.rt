//! Lookup of extensions whose contents need not be DER.
ghost use Rattle.x509.specs.Lenient.{BerRead, FindsLenient, IsDerOf, LenientAnswer, SaysDerOf};

use crate::find::lenient::extension::LenientExtension;
use crate::find::lenient::lenient::Lenient;
use crate::{Extension, Extensions, FindError, Occurrence};
use der::{DecodeBytes, DecodeValue, Error, Lawful, SliceReader};
use der_asn1::{Item, lawful_from_der};
use std::alloc::Global;

/// The extension of type `K` in a list; `None` if no extension has this type. Its contents are DER,
/// or differ from DER in one or more of three ways: a keyUsage ends with zero bits; a
/// basicConstraints writes `cA FALSE`; the length of a basicConstraints is indefinite.
///
/// # Errors
///
/// - `Repeated`, if more than one extension has this type.
/// - `Contents`, if the contents of the extension differ from DER in any other way, also if they are
///   BER. It holds the error of `from_ber`. Positions count from the start of these contents.
pub fn find_lenient<'a, K: LenientExtension<'a>>(
    alloc: Global,
    extensions: &Extensions<'a>,
) -> Result<Option<Lenient<K::Lenient>>, FindError>
where
    K::Value: DecodeValue<SliceReader<'a>, Error = Error>,
    K::Lenient: DecodeValue<SliceReader<'a>, Error = Error>,
    ensures { FindsLenient ⟦<Extension<'a> as Item>⟧.item.valid ⟦<Extension<'a> as Item>⟧.item.octets
        (BerRead K.Lenient.tag_is K.Lenient.takes K.Lenient.value_levels K.Lenient.allocates
        K.Lenient.decode_value_answers) (SaysDerOf K.Value.allocates
        (IsDerOf K.Value.tag_is K.Value.valid K.Value.contents)) K.id_octets
        extensions.now.items.octets.now result }
{
    let oid = K::identifier();
    match extensions.get(alloc, &oid) {
        Occurrence::Absent => Ok(None),
        Occurrence::Once(extension) => read_lenient::<K>(alloc, &extension),
        Occurrence::Several => Err(FindError::Repeated),
    }
}

// Decodes the contents of an extension as a value, by `from_ber`.
fn read_lenient<'a, K: LenientExtension<'a>>(
    alloc: Global,
    extension: &Extension<'a>,
) -> Result<Option<Lenient<K::Lenient>>, FindError>
where
    K::Value: DecodeValue<SliceReader<'a>, Error = Error>,
    K::Lenient: DecodeValue<SliceReader<'a>, Error = Error>,
    ensures { LenientAnswer (BerRead K.Lenient.tag_is K.Lenient.takes K.Lenient.value_levels
        K.Lenient.allocates K.Lenient.decode_value_answers) (SaysDerOf K.Value.allocates
        (IsDerOf K.Value.tag_is K.Value.valid K.Value.contents)) extension.now result }
{
    let octets = extension.extn_value.octets();
    match <K::Lenient as DecodeBytes>::from_ber(alloc, octets) {
        Ok(value) => {
            let critical = extension.critical.0.is_true();
            let is_der = is_der_of::<K::Value>(alloc, octets);
            Ok(Some(Lenient {
                critical,
                is_der,
                value,
            }))
        }
        Err(error) => Err(FindError::Contents(error)),
    }
}

// Whether the octets are the DER encoding of a value.
fn is_der_of<'a, T: Lawful + DecodeValue<SliceReader<'a>, Error = Error>>(
    alloc: Global,
    octets: &'a [u8],
) -> bool
    ensures { SaysDerOf T.allocates (IsDerOf T.tag_is T.valid T.contents) octets.now result }
{
    lawful_from_der::<T>(alloc, octets).is_ok()
}
