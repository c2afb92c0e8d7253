//! Attributes of certification requests whose types are known.
ghost use Rattle.std.specs.Prelude.{◌≡◌, ℕ, List};
ghost use Rattle.x509.specs.Find.{AttributeAnswer, WholeRead};

use super::error::FindError;
use crate::asn1::Attribute;
use der::{DecodeValue, EncodeValue, Error, Lawful, SliceReader};
use der_asn1::{ObjectIdentifierRef, lawful_from_der};
use std::alloc::Global;

/// Types that stand for a type of attribute of certification requests. The attribute has exactly
/// one value. Each of the types gives the object identifier of the attribute and the type of its
/// value.
///
/// Ghost member (for proofs only): `id_octets` is the contents octets of the object identifier.
pub trait KnownAttribute<'a> {
    /// The type of the value of the attribute.
    type Value: Lawful + EncodeValue;

    ghost id_octets: { List ℕ };

    /// The object identifier of the attribute.
    fn identifier() -> ObjectIdentifierRef<'static>
        ensures { result.octets.now ≡ id_octets };
}

// Decodes the values of an attribute, which must be one.
pub(crate) fn read_attribute<'a, K: KnownAttribute<'a>>(
    alloc: Global,
    attribute: &Attribute<'a>,
) -> Result<Option<K::Value>, FindError>
where
    K::Value: DecodeValue<SliceReader<'a>, Error = Error>,
    ensures { AttributeAnswer (WholeRead K.Value.tag_is K.Value.valid K.Value.contents
        K.Value.allocates K.Value.decode_value_answers) attribute.now result }
{
    match lawful_from_der::<K::Value>(alloc, attribute.values.octets()) {
        Ok(value) => Ok(Some(value)),
        Err(error) => Err(FindError::Contents(error)),
    }
}
