//! Parts of the octets of a certificate.
ghost use Rattle.std.specs.Prelude.{◌≡◌, ◌<◌, ◌^◌, length};
ghost use Rattle.der.specs.Prelude.{element_octets};

use super::field::{field_between, field_in_middle, first_field};
use crate::asn1::{Certificate, Name, TbsCertificate};
use der::{DecodeValue, Encode, EncodeRef, FixedTag, IsValue, ReadValue, WrittenValue, field_refs};
use spki::SubjectPublicKeyInfoRef;

impl<'a> Certificate<'a> {
    /// The part of `octets` that the signature covers: the element TBSCertificate, with its header
    /// (RFC 5280, 4.1.1.3). `octets` must be the whole encoding of this certificate.
    pub fn signed_octets<'i>(&self, octets: &'i [u8]) -> &'i [u8]
        requires whole { octets.now ≡ element_octets ⟦<Certificate<'a> as FixedTag>⟧.tag_is
            (⟦<Certificate<'a> as WrittenValue>⟧.contents self.now) }
        requires short { length octets.now < 2 ^ 32 }
        ensures { result.now ≡ ⟦<TbsCertificate<'a> as Encode>⟧.encoding self.now.tbs_certificate }
    {
        self.is_value();
        let rest = field_refs!(self, (signature_algorithm, signature));
        first_field(octets, &self.tbs_certificate, &rest)
    }
}

impl<'a> TbsCertificate<'a> {
    /// The part of `octets` that is the name of the issuer, with its header. An OCSP request has a
    /// hash of this part (RFC 6960, 4.1.1). `octets` must be the whole encoding of this
    /// `TbsCertificate`, as [`Certificate::signed_octets`] returns it.
    pub fn issuer_octets<'i>(&self, octets: &'i [u8]) -> &'i [u8]
        requires whole { octets.now ≡ ⟦<TbsCertificate<'a> as Encode>⟧.encoding self.now }
        requires short { length octets.now < 2 ^ 32 }
        ensures { result.now ≡ ⟦<Name<'a> as Encode>⟧.encoding self.now.issuer }
    {
        self.is_value();
        field_between(
            octets,
            &field_refs!(self, (version, serial_number, signature)),
            &self.issuer,
            &field_refs!(
                self,
                (
                    validity,
                    subject,
                    subject_public_key_info,
                    issuer_unique_id,
                    subject_unique_id,
                    extensions
                )
            ),
        )
    }

    /// The part of `octets` that is the name of the subject, with its header. `octets` must be the
    /// whole encoding of this `TbsCertificate`, as [`Certificate::signed_octets`] returns it.
    pub fn subject_octets<'i>(&self, octets: &'i [u8]) -> &'i [u8]
        requires whole { octets.now ≡ ⟦<TbsCertificate<'a> as Encode>⟧.encoding self.now }
        requires short { length octets.now < 2 ^ 32 }
        ensures { result.now ≡ ⟦<Name<'a> as Encode>⟧.encoding self.now.subject }
    {
        self.is_value();
        field_between(
            octets,
            &field_refs!(self, (version, serial_number, signature, issuer, validity)),
            &self.subject,
            &field_refs!(
                self,
                (
                    subject_public_key_info,
                    issuer_unique_id,
                    subject_unique_id,
                    extensions
                )
            ),
        )
    }

    /// The part of `octets` that is the element SubjectPublicKeyInfo, with its header: the
    /// algorithm and the public key of the subject. `octets` must be the whole encoding of this
    /// `TbsCertificate`, as [`Certificate::signed_octets`] returns it.
    pub fn public_key_octets<'i>(&self, octets: &'i [u8]) -> &'i [u8]
        requires whole { octets.now ≡ ⟦<TbsCertificate<'a> as Encode>⟧.encoding self.now }
        requires short { length octets.now < 2 ^ 32 }
        ensures { result.now ≡ ⟦<SubjectPublicKeyInfoRef<'a> as Encode>⟧.encoding
            self.now.subject_public_key_info }
    {
        self.is_value();
        field_in_middle(
            octets,
            &field_refs!(self, (version, serial_number, signature, issuer, validity)),
            &EncodeRef(&self.subject),
            &self.subject_public_key_info,
            &field_refs!(self, (issuer_unique_id, subject_unique_id, extensions)),
        )
    }
}
