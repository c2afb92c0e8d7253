//! Lookup of attributes of certification requests.
ghost use Rattle.x509.specs.Find.{FindsAttribute, HasOccurrence, WholeRead};

use super::error::FindError;
use super::known_attribute::{KnownAttribute, read_attribute};
use super::occurrence::{Occurrence, occurrence_of};
use crate::asn1::{Attribute, CertReqInfo};
use der::{DecodeValue, Error, SliceReader};
use der_asn1::{Item, ObjectIdentifierRef};
use std::alloc::Global;

impl<'a> CertReqInfo<'a> {
    /// Looks up the attribute of the request with the type `oid`. The result holds the attribute,
    /// if exactly one attribute has this type. Otherwise the result says whether no attribute or
    /// more than one has this type. Use this function for attributes that have more than one value,
    /// and for types that do not implement [`KnownAttribute`].
    pub fn get_attribute(
        &self,
        alloc: Global,
        oid: &ObjectIdentifierRef<'_>,
    ) -> Occurrence<Attribute<'a>>
        ensures { HasOccurrence ⟦<Attribute<'a> as Item>⟧.item.valid
            ⟦<Attribute<'a> as Item>⟧.item.octets (λ a. a.oid.octets.now) oid.now.octets.now
            self.now.attributes.0.elements.octets.now result }
    {
        occurrence_of(self.attributes.0.iter(alloc), oid.octets())
    }

    /// The value of the attribute of type `K`; `None` if no attribute has this type. For example,
    /// [`attr::ExtensionRequest`](crate::attr::ExtensionRequest) finds the requested extensions.
    /// The function allocates only if decoding the value allocates. Decoding the types of this
    /// crate does not allocate.
    ///
    /// # Errors
    ///
    /// - `Repeated`, if more than one attribute has this type.
    /// - `Contents`, if the attribute does not have exactly one value of this type. It holds the
    ///   error of decoding the contents of the SET of values as one value. This is `Incomplete` if
    ///   there is no value, and `TrailingData` if there is more than one. Positions count from the
    ///   start of these contents.
    pub fn find_attribute<K: KnownAttribute<'a>>(
        &self,
        alloc: Global,
    ) -> Result<Option<K::Value>, FindError>
    where
        K::Value: DecodeValue<SliceReader<'a>, Error = Error>,
        ensures { FindsAttribute ⟦<Attribute<'a> as Item>⟧.item.valid
            ⟦<Attribute<'a> as Item>⟧.item.octets (WholeRead K.Value.tag_is K.Value.valid
            K.Value.contents K.Value.allocates K.Value.decode_value_answers) K.id_octets
            self.now.attributes.0.elements.octets.now result }
    {
        let oid = K::identifier();
        match self.get_attribute(alloc, &oid) {
            Occurrence::Absent => Ok(None),
            Occurrence::Once(attribute) => read_attribute::<K>(alloc, &attribute),
            Occurrence::Several => Err(FindError::Repeated),
        }
    }
}
