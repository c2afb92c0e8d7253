//! Extensions whose types are known.
ghost use Rattle.std.specs.Prelude.{◌≡◌, ℕ, List};
ghost use Rattle.x509.specs.Find.{KnownAnswer, WholeRead};

use super::error::FindError;
use crate::asn1::Extension;
use der::{DecodeValue, EncodeValue, Error, Lawful, SliceReader};
use der_asn1::{ObjectIdentifierRef, lawful_from_der};
use std::alloc::Global;

/// Types that stand for a type of extension. Each of them gives the object identifier of the
/// extension and the type of its value.
///
/// Ghost member (for proofs only): `id_octets` is the contents octets of the object identifier.
pub trait KnownExtension<'a> {
    /// The type of the value of the extension. The encoding of the value is inside the OCTET STRING
    /// of the extension.
    type Value: Lawful + EncodeValue;

    ghost id_octets: { List ℕ };

    /// The object identifier of the extension.
    fn identifier() -> ObjectIdentifierRef<'static>
        ensures { result.octets.now ≡ id_octets };
}

/// An extension that was found by its type.
#[derive(Clone, Copy, Drop)]
pub struct Known<V> {
    /// Whether an application that does not process the extension must reject the certificate or
    /// the certificate revocation list (RFC 5280, 4.2, 5.2, 5.3).
    pub critical: bool,
    /// The value of the extension.
    pub value: V,
}

// Decodes the contents of an extension as a value.
pub(crate) fn read_known<'a, K: KnownExtension<'a>>(
    alloc: Global,
    extension: &Extension<'a>,
) -> Result<Option<Known<K::Value>>, FindError>
where
    K::Value: DecodeValue<SliceReader<'a>, Error = Error>,
    ensures { KnownAnswer (WholeRead K.Value.tag_is K.Value.valid K.Value.contents
        K.Value.allocates K.Value.decode_value_answers) extension.now result }
{
    match lawful_from_der::<K::Value>(alloc, extension.extn_value.octets()) {
        Ok(value) => {
            let critical = extension.critical.0.is_true();
            Ok(Some(Known { critical, value }))
        }
        Err(error) => Err(FindError::Contents(error)),
    }
}
