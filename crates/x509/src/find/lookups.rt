//! Lookup of extensions in certificates, in revocation lists, and in the entries of revocation
//! lists.
ghost use Rattle.std.specs.Prelude.{◌≡◌, IfNone, IfSome};
ghost use Rattle.x509.specs.Find.{FindsExtension, WholeRead};

use super::error::FindError;
use super::known::{Known, KnownExtension};
use crate::asn1::{Extension, RevokedCertificate, TbsCertList, TbsCertificate};
use der::{DecodeValue, Error, SliceReader};
use der_asn1::Item;
use std::alloc::Global;

impl<'a> TbsCertificate<'a> {
    /// The extension of type `K` of the certificate, with its contents decoded; `None` if no
    /// extension has this type, or there are no extensions.
    ///
    /// # Errors
    ///
    /// The errors of [`Extensions::find`](crate::Extensions::find).
    pub fn find_extension<K: KnownExtension<'a>>(
        &self,
        alloc: Global,
    ) -> Result<Option<Known<K::Value>>, FindError>
    where
        K::Value: DecodeValue<SliceReader<'a>, Error = Error>,
        ensures absent { IfNone self.now.extensions.0 (result ≡ Ok None) }
        ensures found { IfSome self.now.extensions.0 (λ e. FindsExtension
            ⟦<Extension<'a> as Item>⟧.item.valid ⟦<Extension<'a> as Item>⟧.item.octets
            (WholeRead K.Value.tag_is K.Value.valid K.Value.contents K.Value.allocates
            K.Value.decode_value_answers) K.id_octets e.0.items.octets.now result) }
    {
        match &self.extensions.0 {
            Some(extensions) => extensions.0.find::<K>(alloc),
            None => Ok(None),
        }
    }
}

impl<'a> TbsCertList<'a> {
    /// The extension of type `K` of the revocation list, with its contents decoded; `None` if no
    /// extension has this type, or there are no extensions.
    ///
    /// # Errors
    ///
    /// The errors of [`Extensions::find`](crate::Extensions::find).
    pub fn find_extension<K: KnownExtension<'a>>(
        &self,
        alloc: Global,
    ) -> Result<Option<Known<K::Value>>, FindError>
    where
        K::Value: DecodeValue<SliceReader<'a>, Error = Error>,
        ensures absent { IfNone self.now.crl_extensions.0 (result ≡ Ok None) }
        ensures found { IfSome self.now.crl_extensions.0 (λ e. FindsExtension
            ⟦<Extension<'a> as Item>⟧.item.valid ⟦<Extension<'a> as Item>⟧.item.octets
            (WholeRead K.Value.tag_is K.Value.valid K.Value.contents K.Value.allocates
            K.Value.decode_value_answers) K.id_octets e.0.items.octets.now result) }
    {
        match &self.crl_extensions.0 {
            Some(extensions) => extensions.0.find::<K>(alloc),
            None => Ok(None),
        }
    }
}

impl<'a> RevokedCertificate<'a> {
    /// The extension of type `K` of the entry of a revocation list, with its contents decoded;
    /// `None` if no extension has this type, or there are no extensions.
    ///
    /// # Errors
    ///
    /// The errors of [`Extensions::find`](crate::Extensions::find).
    pub fn find_extension<K: KnownExtension<'a>>(
        &self,
        alloc: Global,
    ) -> Result<Option<Known<K::Value>>, FindError>
    where
        K::Value: DecodeValue<SliceReader<'a>, Error = Error>,
        ensures absent { IfNone self.now.crl_entry_extensions.0 (result ≡ Ok None) }
        ensures found { IfSome self.now.crl_entry_extensions.0 (λ e. FindsExtension
            ⟦<Extension<'a> as Item>⟧.item.valid ⟦<Extension<'a> as Item>⟧.item.octets
            (WholeRead K.Value.tag_is K.Value.valid K.Value.contents K.Value.allocates
            K.Value.decode_value_answers) K.id_octets e.items.octets.now result) }
    {
        match &self.crl_entry_extensions.0 {
            Some(extensions) => extensions.find::<K>(alloc),
            None => Ok(None),
        }
    }
}
