//! Lookup of attributes of names.
ghost use Rattle.x509.specs.Find.{HasOccurrence};
ghost use Rattle.x509.specs.Names.{HasAttribute};

use super::occurrence::{Occurrence, occurrence_of};
use crate::asn1::{AttributeTypeAndValue, Name, RelativeDistinguishedName};
use der_asn1::{Item, ObjectIdentifierRef};
use std::alloc::Global;

impl<'a> RelativeDistinguishedName<'a> {
    /// Looks up the attribute of this RelativeDistinguishedName with the type `oid`. The result
    /// holds the attribute, if exactly one attribute has this type. Otherwise the result says
    /// whether no attribute or more than one has this type.
    pub fn get(
        &self,
        alloc: Global,
        oid: &ObjectIdentifierRef<'_>,
    ) -> Occurrence<AttributeTypeAndValue<'a>>
        ensures { HasOccurrence ⟦<AttributeTypeAndValue<'a> as Item>⟧.item.valid
            ⟦<AttributeTypeAndValue<'a> as Item>⟧.item.octets (λ a. a.oid.octets.now)
            oid.now.octets.now self.now.attributes.elements.octets.now result }
    {
        occurrence_of(self.attributes.iter(alloc), oid.octets())
    }
}

impl<'a> Name<'a> {
    /// Looks up the attribute with the type `oid` in all RelativeDistinguishedNames of the name.
    /// The result holds the attribute, if exactly one attribute has this type. Otherwise the result
    /// says whether no attribute or more than one has this type.
    ///
    /// A name may have several attributes of some types, such as domainComponent. For these types,
    /// call [`RelativeDistinguishedName::get`] for each RelativeDistinguishedName, or use
    /// [`Name::attributes`].
    pub fn get(
        &self,
        alloc: Global,
        oid: &ObjectIdentifierRef<'_>,
    ) -> Occurrence<AttributeTypeAndValue<'a>>
        ensures { HasAttribute ⟦<AttributeTypeAndValue<'a> as Item>⟧.item.valid
            ⟦<AttributeTypeAndValue<'a> as Item>⟧.item.octets
            ⟦<RelativeDistinguishedName<'a> as Item>⟧.item.valid
            ⟦<RelativeDistinguishedName<'a> as Item>⟧.item.octets
            oid.now.octets.now self.now.levels.octets.now result }
    {
        let mut found = Occurrence::Absent;
        'levels: for level in self.levels.iter(alloc) {
            let others = level.get(alloc, oid);
            found = found.and(others);
        }
        found
    }
}
