//! Lookup of extensions.
ghost use Rattle.x509.specs.Find.{FindsExtension, HasOccurrence, WholeRead};

use super::error::FindError;
use super::known::{Known, KnownExtension, read_known};
use super::occurrence::{Occurrence, occurrence_of};
use crate::asn1::{Extension, Extensions};
use der::{DecodeValue, Error, SliceReader};
use der_asn1::{Item, ObjectIdentifierRef};
use std::alloc::Global;

impl<'a> Extensions<'a> {
    /// Looks up the extension of the list with the type `oid`. The result holds the extension, if
    /// exactly one extension has this type. Otherwise the result says whether no extension or more
    /// than one has this type. Use this function for types that do not implement
    /// [`KnownExtension`].
    pub fn get(&self, alloc: Global, oid: &ObjectIdentifierRef<'_>) -> Occurrence<Extension<'a>>
        ensures { HasOccurrence ⟦<Extension<'a> as Item>⟧.item.valid
            ⟦<Extension<'a> as Item>⟧.item.octets (λ e. e.extn_id.octets.now) oid.now.octets.now
            self.now.items.octets.now result }
    {
        occurrence_of(self.items.iter(alloc), oid.octets())
    }

    /// The extension of type `K`, with its contents decoded; `None` if no extension has this type.
    /// The function allocates only if decoding the value allocates. Decoding the types of this
    /// crate does not allocate.
    ///
    /// # Errors
    ///
    /// - `Repeated`, if more than one extension has this type.
    /// - `Contents`, if the contents of the extension are not the encoding of a value. It holds the
    ///   error of decoding the contents. Positions count from the start of these contents.
    pub fn find<K: KnownExtension<'a>>(
        &self,
        alloc: Global,
    ) -> Result<Option<Known<K::Value>>, FindError>
    where
        K::Value: DecodeValue<SliceReader<'a>, Error = Error>,
        ensures { FindsExtension ⟦<Extension<'a> as Item>⟧.item.valid
            ⟦<Extension<'a> as Item>⟧.item.octets (WholeRead K.Value.tag_is K.Value.valid
            K.Value.contents K.Value.allocates K.Value.decode_value_answers) K.id_octets
            self.now.items.octets.now result }
    {
        let oid = K::identifier();
        match self.get(alloc, &oid) {
            Occurrence::Absent => Ok(None),
            Occurrence::Once(extension) => read_known::<K>(alloc, &extension),
            Occurrence::Several => Err(FindError::Repeated),
        }
    }
}
