//! The octets that a signature with signed attributes covers.
ghost use Rattle.std.specs.Prelude.{◌≡◌, [], IfOk, None, Ok, Some, unwrap_or};
ghost use Rattle.std.specs.Option.{option_map};
ghost use Rattle.der.specs.Encode.{SliceAnswer};
ghost use Rattle.der.specs.Prelude.{map_ok};
ghost use Rattle.cms.specs.SignedAttributes.{covered_octets};

use crate::asn1::SignerInfo;
use der::{Encode, Error};
use x509::Attributes;

impl<'a> SignerInfo<'a> {
    /// Writes the signed attributes to the start of `buffer` as the signature covers them: with the
    /// tag of a SET OF in place of the tag `[0]` (RFC 5652, 5.4). Returns the octets written.
    /// Returns `None` if there are no signed attributes; then the signature covers the content
    /// itself.
    ///
    /// # Errors
    ///
    /// The errors of [`Encode::encode_to_slice`]. One of them is `Overlength`, if the buffer is too
    /// short.
    pub fn signed_attributes_der<'b>(&self, buffer: &'b mut [u8]) -> Result<Option<&'b [u8]>, Error>
        ensures ok { IfOk result (λ r. option_map (λ s. s.now) r ≡ covered_octets self.now) }
        ensures absent { self.now.signed_attrs.0 ≡ None → result ≡ Ok None }
        ensures exact { (attributes : _) → self.now.signed_attrs.0 ≡ Some attributes
            → SliceAnswer (⟦<Attributes<'a> as Encode>⟧.encode_answers attributes.0) buffer.old
            (map_ok (λ r. unwrap_or (option_map (λ s. s.now) r) []) result) }
    {
        match &self.signed_attrs.0 {
            Some(attributes) => {
                let octets = attributes.0.encode_to_slice(buffer)?;
                Ok(Some(octets))
            }
            None => Ok(None),
        }
    }
}
