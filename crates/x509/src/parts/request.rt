//! Parts of the octets of a certification request.
ghost use Rattle.std.specs.Prelude.{◌≡◌, ◌<◌, ◌^◌, length};
ghost use Rattle.der.specs.Prelude.{element_octets};

use super::field::{field_between, first_field};
use crate::asn1::{CertReq, CertReqInfo};
use der::{DecodeValue, Encode, EncodeRef, FixedTag, IsValue, ReadValue, WrittenValue, field_refs};
use spki::SubjectPublicKeyInfoRef;

impl<'a> CertReq<'a> {
    /// The part of `octets` that the signature covers: the element CertificationRequestInfo, with
    /// its header (RFC 2986, 4.2). `octets` must be the whole encoding of this request.
    pub fn signed_octets<'i>(&self, octets: &'i [u8]) -> &'i [u8]
        requires whole { octets.now ≡ element_octets ⟦<CertReq<'a> as FixedTag>⟧.tag_is
            (⟦<CertReq<'a> as WrittenValue>⟧.contents self.now) }
        requires short { length octets.now < 2 ^ 32 }
        ensures { result.now ≡ ⟦<CertReqInfo<'a> as Encode>⟧.encoding self.now.info }
    {
        self.is_value();
        let rest = field_refs!(self, (algorithm, signature));
        first_field(octets, &self.info, &rest)
    }
}

impl<'a> CertReqInfo<'a> {
    /// The part of `octets` that is the element SubjectPublicKeyInfo, with its header: the
    /// algorithm and the public key. `octets` must be the whole encoding of this `CertReqInfo`, as
    /// [`CertReq::signed_octets`] returns it.
    pub fn public_key_octets<'i>(&self, octets: &'i [u8]) -> &'i [u8]
        requires whole { octets.now ≡ ⟦<CertReqInfo<'a> as Encode>⟧.encoding self.now }
        requires short { length octets.now < 2 ^ 32 }
        ensures { result.now ≡ ⟦<SubjectPublicKeyInfoRef<'a> as Encode>⟧.encoding
            self.now.public_key }
    {
        self.is_value();
        field_between(
            octets,
            &field_refs!(self, (version, subject)),
            &self.public_key,
            &EncodeRef(&self.attributes),
        )
    }
}
