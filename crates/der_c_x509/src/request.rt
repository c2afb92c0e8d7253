//! Reading certification requests.
ghost use Rattle.std.specs.Prelude.{◌≡◌, ◌<◌, ◌^◌, false, length};
ghost use Rattle.der.specs.Prelude.{element_octets};
ghost use Rattle.x509.specs.Find.{WholeRead};
ghost use Rattle.der_c_x509.specs.Calls.{ReadsWhole};
ghost use Rattle.der_c_x509.specs.Request.{IsRequestOf};

use crate::algorithm::{DerAlgorithm, algorithm_of};
use crate::public_key::{DerPublicKey, public_key_of};
use crate::strings::bits_of;
use der::{DecodeValue, Encode, FixedTag, ReadValue, SliceReader, WrittenValue};
use der_asn1::lawful_from_der;
use der_c_core::{DerBits, DerError, DerSpan, located_in};
use spki::SubjectPublicKeyInfoRef;
use std::alloc::Global;
use x509::{CertReq, CertReqInfo};

/// A certification request (PKCS #10; RFC 2986, 4). All octets are borrowed from the input. The
/// version of a request is always 1.
#[repr(C)]
#[derive(Clone, Copy)]
pub struct DerRequest<'a> {
    /// The octets that the signature covers: the whole element CertificationRequestInfo, with its
    /// header.
    pub signed_part: DerSpan<'a>,
    /// The contents octets of the Name of the subject.
    pub subject: DerSpan<'a>,
    /// The public key of the subject.
    pub public_key: DerPublicKey<'a>,
    /// The contents octets of the SET of attributes. The values of the attributes are not checked.
    pub attributes: DerSpan<'a>,
    /// The algorithm of `signature`.
    pub signature_algorithm: DerAlgorithm<'a>,
    /// The signature of the signed part. It is not verified.
    pub signature: DerBits<'a>,
}

impl DerRequest<'_> {
    /// The value of a certification request before it is read: all fields are empty.
    pub const EMPTY: DerRequest<'static> = DerRequest {
        signed_part: DerSpan::EMPTY,
        subject: DerSpan::EMPTY,
        public_key: DerPublicKey::EMPTY,
        attributes: DerSpan::EMPTY,
        signature_algorithm: DerAlgorithm::EMPTY,
        signature: DerBits::EMPTY,
    };
}

// A request as a struct of C. `octets` are its encoding.
fn request_of<'a>(octets: &'a [u8], value: &CertReq<'a>) -> DerRequest<'a>
    requires short { length octets.now < 2 ^ 32 }
    requires valid { ⟦<CertReq<'a> as ReadValue>⟧.valid value.now }
    requires whole { octets.now ≡ element_octets ⟦<CertReq<'a> as FixedTag>⟧.tag_is
        (⟦<CertReq<'a> as WrittenValue>⟧.contents value.now) }
    ensures { IsRequestOf ⟦<CertReqInfo<'a> as Encode>⟧.encoding
        ⟦<SubjectPublicKeyInfoRef<'a> as Encode>⟧.encoding value.now result }
{
    let signed = &value.info;
    let signed_octets = value.signed_octets(octets);
    let key_octets = signed.public_key_octets(signed_octets);
    DerRequest {
        signed_part: DerSpan {
            octets: signed_octets,
        },
        subject: DerSpan {
            octets: signed.subject.levels.octets(),
        },
        public_key: public_key_of(key_octets, &signed.public_key),
        attributes: DerSpan {
            octets: signed.attributes.0.octets(),
        },
        signature_algorithm: algorithm_of(&value.algorithm),
        signature: bits_of(&value.signature),
    }
}

/// Reads a certification request into `request`. `octets` must be the DER encoding of one request
/// (RFC 2986, 4).
///
/// A call that fails leaves `request` unchanged. Fails with:
///
/// - `Overflow` without a position, if there are more than 4294967295 octets;
/// - the error of decoding, if `octets` do not begin with a request. Its position, if it has one,
///   is counted from the start of `octets`;
/// - `TrailingData`, if octets follow the request.
///
/// The errors are the same as of `x509::CertReq::from_der`, with one exception. If the contents of
/// the outermost element are cut, the error is `Incomplete` at the start of these contents, and its
/// `first` is the position at which they would end.
pub fn der_request_read<'a>(
    alloc: Global,
    octets: &'a [u8],
    request: &mut DerRequest<'a>,
) -> DerError
    ensures { ReadsWhole (WholeRead ⟦<CertReq<'a> as FixedTag>⟧.tag_is
        ⟦<CertReq<'a> as ReadValue>⟧.valid ⟦<CertReq<'a> as WrittenValue>⟧.contents false
        ⟦<CertReq<'a> as DecodeValue<SliceReader<'a>>>⟧.decode_value_answers)
        (IsRequestOf ⟦<CertReqInfo<'a> as Encode>⟧.encoding
        ⟦<SubjectPublicKeyInfoRef<'a> as Encode>⟧.encoding) octets.now result request.old
        request.new }
{
    match lawful_from_der::<CertReq<'a>>(alloc, octets) {
        Ok(value) => {
            *request = request_of(octets, &value);
            DerError::NONE
        }
        Err(error) => located_in(octets, error),
    }
}
