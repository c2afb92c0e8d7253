//! The part of a revocation list that its signature covers.
ghost use Rattle.std.specs.Prelude.{◌≡◌, ◌<◌, ◌^◌, length};
ghost use Rattle.der.specs.Prelude.{element_octets};

use super::field::first_field;
use crate::asn1::{CertificateList, TbsCertList};
use der::{DecodeValue, Encode, FixedTag, IsValue, ReadValue, WrittenValue, field_refs};

impl<'a> CertificateList<'a> {
    /// The part of `octets` that the signature covers: the element TBSCertList, with its header
    /// (RFC 5280, 5.1.1.3). `octets` must be the whole encoding of this list.
    pub fn signed_octets<'i>(&self, octets: &'i [u8]) -> &'i [u8]
        requires whole { octets.now ≡ element_octets ⟦<CertificateList<'a> as FixedTag>⟧.tag_is
            (⟦<CertificateList<'a> as WrittenValue>⟧.contents self.now) }
        requires short { length octets.now < 2 ^ 32 }
        ensures { result.now ≡ ⟦<TbsCertList<'a> as Encode>⟧.encoding self.now.tbs_cert_list }
    {
        self.is_value();
        let rest = field_refs!(self, (signature_algorithm, signature));
        first_field(octets, &self.tbs_cert_list, &rest)
    }
}
