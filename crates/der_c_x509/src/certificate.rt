//! Reading certificates.
ghost use Rattle.std.specs.Prelude.{◌≡◌, ◌<◌, ◌^◌, false, [], length, MatchOption};
ghost use Rattle.der.specs.Prelude.{element_octets};
ghost use Rattle.x509.specs.Find.{WholeRead};
ghost use Rattle.der_c_x509.specs.Certificate.{IsCertificateOf, IsVersionOf};
ghost use Rattle.der_c_x509.specs.Fields.{IsBitsOf, IsNoBits, IsPublicKeyOf};
ghost use Rattle.der_c_x509.specs.Calls.{ReadsWhole};

use crate::algorithm::{DerAlgorithm, algorithm_of};
use crate::public_key::{DerPublicKey, public_key_of};
use crate::strings::{bits_of, span_of};
use crate::time::seconds_of;
use der::{DecodeValue, Encode, FixedTag, ReadValue, SliceReader, WrittenValue};
use der_asn1::{BitStringRef, Explicit, Implicit, Optional, lawful_from_der};
use der_c_core::{DerBits, DerError, DerSpan, located_in};
use spki::SubjectPublicKeyInfoRef;
use std::alloc::Global;
use x509::{Certificate, Extensions, TbsCertificate, Version};

/// A certificate (RFC 5280, 4.1). All octets are borrowed from the input.
#[repr(C)]
#[derive(Clone, Copy)]
pub struct DerCertificate<'a> {
    /// The octets that the signature covers: the whole element TBSCertificate, with its header.
    pub signed_part: DerSpan<'a>,
    /// The contents octets of the INTEGER that is the serial number. The number may be negative.
    pub serial_number: DerSpan<'a>,
    /// The contents octets of the Name of the issuer.
    pub issuer: DerSpan<'a>,
    /// The contents octets of the Name of the subject.
    pub subject: DerSpan<'a>,
    /// The algorithm of the signature, as the signed part states it. RFC 5280, 4.1.1.2, requires
    /// that it is equal to `signature_algorithm`. This is not checked.
    pub signed_algorithm: DerAlgorithm<'a>,
    /// The public key of the subject.
    pub public_key: DerPublicKey<'a>,
    /// The unique identifier of the issuer. It has no bits if it is absent.
    pub issuer_unique_id: DerBits<'a>,
    /// The unique identifier of the subject. It has no bits if it is absent.
    pub subject_unique_id: DerBits<'a>,
    /// The contents octets of the list of extensions. Empty if the list is absent. The values of
    /// the extensions are not checked.
    pub extensions: DerSpan<'a>,
    /// The algorithm of `signature`, as the certificate states it outside of the signed part.
    pub signature_algorithm: DerAlgorithm<'a>,
    /// The signature of the signed part. It is not verified.
    pub signature: DerBits<'a>,
    /// The first second in which the certificate is valid, in seconds from 1970-01-01T00:00:00Z. It
    /// is negative for a time before 1970.
    pub not_before: i64,
    /// The last second in which the certificate is valid, in seconds from 1970-01-01T00:00:00Z. It
    /// is negative for a time before 1970.
    pub not_after: i64,
    /// The version: 1, 2 or 3.
    pub version: u8,
    /// Whether `issuer_unique_id` is present.
    pub has_issuer_unique_id: bool,
    /// Whether `subject_unique_id` is present.
    pub has_subject_unique_id: bool,
    /// Whether the list of extensions is present.
    pub has_extensions: bool,
}

impl DerCertificate<'_> {
    /// The value of a certificate before it is read: all fields are empty, 0 or false.
    pub const EMPTY: DerCertificate<'static> = DerCertificate {
        signed_part: DerSpan::EMPTY,
        serial_number: DerSpan::EMPTY,
        issuer: DerSpan::EMPTY,
        subject: DerSpan::EMPTY,
        signed_algorithm: DerAlgorithm::EMPTY,
        public_key: DerPublicKey::EMPTY,
        issuer_unique_id: DerBits::EMPTY,
        subject_unique_id: DerBits::EMPTY,
        extensions: DerSpan::EMPTY,
        signature_algorithm: DerAlgorithm::EMPTY,
        signature: DerBits::EMPTY,
        not_before: 0,
        not_after: 0,
        version: 0,
        has_issuer_unique_id: false,
        has_subject_unique_id: false,
        has_extensions: false,
    };
}

// The number of a version.
pub(crate) fn version_of(value: &Version<'_>) -> u8
    ensures { IsVersionOf value.now.octets.now result }
{
    match value.octets() {
        [octet] => *octet + 1,
        _ => unreachable!(),
    }
}

// A BIT STRING with an implicit tag, or no bits.
pub(crate) fn optional_bits_of<'a, const N: u32>(
    value: &Optional<Implicit<BitStringRef<'a>, N>>,
) -> DerBits<'a>
    ensures { MatchOption value.now.0 (IsNoBits result) (λ b. IsBitsOf b.0.octets.now result) }
{
    match &value.0 {
        Some(value) => bits_of(&value.0),
        None => DerBits::EMPTY,
    }
}

// The contents of a list of extensions, or no octets.
pub(crate) fn extensions_of<'a, const N: u32>(
    value: &Optional<Explicit<Extensions<'a>, N>>,
) -> DerSpan<'a>
    ensures { MatchOption value.now.0 (result.octets.now ≡ [])
        (λ e. result.octets.now ≡ e.0.items.octets.now) }
{
    match &value.0 {
        Some(value) => DerSpan {
            octets: value.0.items.octets(),
        },
        None => DerSpan::EMPTY,
    }
}

// The public key of a certificate. `octets` are the signed part.
fn certificate_key_of<'a>(octets: &'a [u8], signed: &TbsCertificate<'a>) -> DerPublicKey<'a>
    requires short { length octets.now < 2 ^ 32 }
    requires valid { ⟦<TbsCertificate<'a> as ReadValue>⟧.valid signed.now }
    requires whole { octets.now ≡ ⟦<TbsCertificate<'a> as Encode>⟧.encoding signed.now }
    ensures { IsPublicKeyOf ⟦<SubjectPublicKeyInfoRef<'a> as Encode>⟧.encoding
        signed.now.subject_public_key_info result }
{
    let whole = signed.public_key_octets(octets);
    public_key_of(whole, &signed.subject_public_key_info)
}

// A certificate as a struct of C. `octets` are its encoding.
fn certificate_of<'a>(octets: &'a [u8], value: &Certificate<'a>) -> DerCertificate<'a>
    requires short { length octets.now < 2 ^ 32 }
    requires valid { ⟦<Certificate<'a> as ReadValue>⟧.valid value.now }
    requires whole { octets.now ≡ element_octets ⟦<Certificate<'a> as FixedTag>⟧.tag_is
        (⟦<Certificate<'a> as WrittenValue>⟧.contents value.now) }
    ensures { IsCertificateOf ⟦<TbsCertificate<'a> as Encode>⟧.encoding
        ⟦<SubjectPublicKeyInfoRef<'a> as Encode>⟧.encoding value.now result }
{
    let signed = &value.tbs_certificate;
    let signed_octets = value.signed_octets(octets);
    DerCertificate {
        signed_part: DerSpan {
            octets: signed_octets,
        },
        serial_number: span_of(&signed.serial_number),
        issuer: DerSpan {
            octets: signed.issuer.levels.octets(),
        },
        subject: DerSpan {
            octets: signed.subject.levels.octets(),
        },
        signed_algorithm: algorithm_of(&signed.signature),
        public_key: certificate_key_of(signed_octets, signed),
        issuer_unique_id: optional_bits_of(&signed.issuer_unique_id),
        subject_unique_id: optional_bits_of(&signed.subject_unique_id),
        extensions: extensions_of(&signed.extensions),
        signature_algorithm: algorithm_of(&value.signature_algorithm),
        signature: bits_of(&value.signature),
        not_before: seconds_of(&signed.validity.not_before),
        not_after: seconds_of(&signed.validity.not_after),
        version: version_of(&signed.version.0.0),
        has_issuer_unique_id: signed.issuer_unique_id.0.is_some(),
        has_subject_unique_id: signed.subject_unique_id.0.is_some(),
        has_extensions: signed.extensions.0.is_some(),
    }
}

/// Reads a certificate into `certificate`. `octets` must be the DER encoding of one certificate
/// (RFC 5280, 4.1).
///
/// A call that fails leaves `certificate` unchanged. Fails with:
///
/// - `Overflow` without a position, if there are more than 4294967295 octets;
/// - the error of decoding, if `octets` do not begin with a certificate. Its position, if it has
///   one, is counted from the start of `octets`;
/// - `TrailingData`, if octets follow the certificate.
///
/// The errors are the same as of `x509::Certificate::from_der`, with one exception. If the contents
/// of the outermost element are cut, the error is `Incomplete` at the start of these contents, and
/// its `first` is the position at which they would end.
pub fn der_certificate_read<'a>(
    alloc: Global,
    octets: &'a [u8],
    certificate: &mut DerCertificate<'a>,
) -> DerError
    ensures { ReadsWhole (WholeRead ⟦<Certificate<'a> as FixedTag>⟧.tag_is
        ⟦<Certificate<'a> as ReadValue>⟧.valid ⟦<Certificate<'a> as WrittenValue>⟧.contents false
        ⟦<Certificate<'a> as DecodeValue<SliceReader<'a>>>⟧.decode_value_answers)
        (IsCertificateOf ⟦<TbsCertificate<'a> as Encode>⟧.encoding
        ⟦<SubjectPublicKeyInfoRef<'a> as Encode>⟧.encoding) octets.now result certificate.old
        certificate.new }
{
    match lawful_from_der::<Certificate<'a>>(alloc, octets) {
        Ok(value) => {
            *certificate = certificate_of(octets, &value);
            DerError::NONE
        }
        Err(error) => located_in(octets, error),
    }
}
