//! The parts of a request and of a response that their signatures cover.
ghost use Rattle.std.specs.Prelude.{◌≡◌, ◌<◌, ◌^◌, length};
ghost use Rattle.der.specs.Prelude.{element_octets};

use crate::asn1::{BasicOcspResponse, OcspRequest, ResponseData, TbsRequest};
use der::{DecodeValue, Encode, EncodeRef, FixedTag, IsValue, ReadValue, WrittenValue, field_refs};
use x509::first_field;

impl<'a> BasicOcspResponse<'a> {
    /// The part of `octets` that the signature covers: the element ResponseData, with its header
    /// (RFC 6960, 4.2.1). `octets` must be the whole encoding of this response.
    pub fn signed_octets<'i>(&self, octets: &'i [u8]) -> &'i [u8]
        requires whole { octets.now ≡ element_octets ⟦<BasicOcspResponse<'a> as FixedTag>⟧.tag_is
            (⟦<BasicOcspResponse<'a> as WrittenValue>⟧.contents self.now) }
        requires short { length octets.now < 2 ^ 32 }
        ensures { result.now
            ≡ ⟦<ResponseData<'a> as Encode>⟧.encoding self.now.tbs_response_data }
    {
        self.is_value();
        let rest = field_refs!(self, (signature_algorithm, signature, certs));
        first_field(octets, &self.tbs_response_data, &rest)
    }
}

impl<'a> OcspRequest<'a> {
    /// The part of `octets` that a signature covers: the element TBSRequest, with its header (RFC
    /// 6960, 4.1.1). `octets` must be the whole encoding of this request.
    pub fn signed_octets<'i>(&self, octets: &'i [u8]) -> &'i [u8]
        requires whole { octets.now ≡ element_octets ⟦<OcspRequest<'a> as FixedTag>⟧.tag_is
            (⟦<OcspRequest<'a> as WrittenValue>⟧.contents self.now) }
        requires short { length octets.now < 2 ^ 32 }
        ensures { result.now ≡ ⟦<TbsRequest<'a> as Encode>⟧.encoding self.now.tbs_request }
    {
        self.is_value();
        first_field(
            octets,
            &self.tbs_request,
            &EncodeRef(&self.optional_signature),
        )
    }
}
