//! Reading certificate revocation lists.
ghost use Rattle.std.specs.Prelude.{◌≡◌, ◌<◌, ◌^◌, false, [], length, MatchOption};
ghost use Rattle.der.specs.Prelude.{element_octets};
ghost use Rattle.x509.specs.Find.{WholeRead};
ghost use Rattle.der_c_x509.specs.Calls.{ReadsWhole};
ghost use Rattle.der_c_x509.specs.Certificate.{IsVersionOf};
ghost use Rattle.der_c_x509.specs.RevocationList.{IsRevocationListOf};

use crate::algorithm::{DerAlgorithm, algorithm_of};
use crate::certificate::{extensions_of, version_of};
use crate::strings::bits_of;
use crate::time::{optional_seconds_of, seconds_of};
use der::{DecodeValue, Encode, FixedTag, ReadValue, SliceReader, WrittenValue};
use der_asn1::{Optional, SequenceOf, lawful_from_der};
use der_c_core::{DerBits, DerError, DerSpan, located_in};
use std::alloc::Global;
use x509::{CertificateList, RevokedCertificate, TbsCertList, Version};

/// A certificate revocation list (RFC 5280, 5.1). All octets are borrowed from the input.
#[repr(C)]
#[derive(Clone, Copy)]
pub struct DerRevocationList<'a> {
    /// The octets that the signature covers: the whole element TBSCertList, with its header.
    pub signed_part: DerSpan<'a>,
    /// The algorithm of the signature, as the signed part states it. RFC 5280, 5.1.1.2, requires
    /// that it is equal to `signature_algorithm`. This is not checked.
    pub signed_algorithm: DerAlgorithm<'a>,
    /// The contents octets of the Name of the issuer.
    pub issuer: DerSpan<'a>,
    /// The contents octets of revokedCertificates, a list of entries for `der_next_revoked`. Empty
    /// if the list of entries is absent.
    pub entries: DerSpan<'a>,
    /// The contents octets of the list of extensions. Empty if the list is absent. The values of
    /// the extensions are not checked.
    pub extensions: DerSpan<'a>,
    /// The algorithm of `signature`, as the revocation list states it outside of the signed part.
    pub signature_algorithm: DerAlgorithm<'a>,
    /// The signature of the signed part. It is not verified.
    pub signature: DerBits<'a>,
    /// The time at which the revocation list was issued, in seconds from 1970-01-01T00:00:00Z. It
    /// is negative for a time before 1970.
    pub this_update: i64,
    /// The time at which the next revocation list will be issued at the latest, in seconds from
    /// 1970-01-01T00:00:00Z. It is negative for a time before 1970, and 0 if it is absent (see
    /// `has_next_update`).
    pub next_update: i64,
    /// The version: 1, 2 or 3. It is 1 if the revocation list does not state a version. RFC 5280,
    /// 5.1.2.1, allows a revocation list to state only version 2. This is not checked.
    pub version: u8,
    /// Whether the time `next_update` is present.
    pub has_next_update: bool,
    /// Whether the list of entries is present.
    pub has_entries: bool,
    /// Whether the list of extensions is present.
    pub has_extensions: bool,
}

impl DerRevocationList<'_> {
    /// The value of a revocation list before it is read: all fields are empty, 0 or false.
    pub const EMPTY: DerRevocationList<'static> = DerRevocationList {
        signed_part: DerSpan::EMPTY,
        signed_algorithm: DerAlgorithm::EMPTY,
        issuer: DerSpan::EMPTY,
        entries: DerSpan::EMPTY,
        extensions: DerSpan::EMPTY,
        signature_algorithm: DerAlgorithm::EMPTY,
        signature: DerBits::EMPTY,
        this_update: 0,
        next_update: 0,
        version: 0,
        has_next_update: false,
        has_entries: false,
        has_extensions: false,
    };
}

// The number of a version, which is 1 if it is absent.
fn list_version_of(value: &Optional<Version<'_>>) -> u8
    ensures { MatchOption value.now.0 (result ≡ 1) (λ v. IsVersionOf v.octets.now result) }
{
    match &value.0 {
        Some(version) => version_of(version),
        None => 1,
    }
}

// The contents of a list of entries, or no octets.
fn entries_of<'a>(value: &Optional<SequenceOf<'a, RevokedCertificate<'a>>>) -> DerSpan<'a>
    ensures { MatchOption value.now.0 (result.octets.now ≡ [])
        (λ e. result.octets.now ≡ e.octets.now) }
{
    match &value.0 {
        Some(value) => DerSpan {
            octets: value.octets(),
        },
        None => DerSpan::EMPTY,
    }
}

// A list as a struct of C. `octets` are its encoding.
fn list_of<'a>(octets: &'a [u8], value: &CertificateList<'a>) -> DerRevocationList<'a>
    requires short { length octets.now < 2 ^ 32 }
    requires valid { ⟦<CertificateList<'a> as ReadValue>⟧.valid value.now }
    requires whole { octets.now ≡ element_octets ⟦<CertificateList<'a> as FixedTag>⟧.tag_is
        (⟦<CertificateList<'a> as WrittenValue>⟧.contents value.now) }
    ensures { IsRevocationListOf ⟦<TbsCertList<'a> as Encode>⟧.encoding value.now result }
{
    let signed = &value.tbs_cert_list;
    DerRevocationList {
        signed_part: DerSpan {
            octets: value.signed_octets(octets),
        },
        signed_algorithm: algorithm_of(&signed.signature),
        issuer: DerSpan {
            octets: signed.issuer.levels.octets(),
        },
        entries: entries_of(&signed.revoked_certificates),
        extensions: extensions_of(&signed.crl_extensions),
        signature_algorithm: algorithm_of(&value.signature_algorithm),
        signature: bits_of(&value.signature),
        this_update: seconds_of(&signed.this_update),
        next_update: optional_seconds_of(&signed.next_update),
        version: list_version_of(&signed.version),
        has_next_update: signed.next_update.0.is_some(),
        has_entries: signed.revoked_certificates.0.is_some(),
        has_extensions: signed.crl_extensions.0.is_some(),
    }
}

/// Reads a certificate revocation list into `list`. `octets` must be the DER encoding of one
/// revocation list (RFC 5280, 5.1). Every entry is checked as `der_next_revoked` checks it.
///
/// A call that fails leaves `list` unchanged. Fails with:
///
/// - `Overflow` without a position, if there are more than 4294967295 octets;
/// - the error of decoding, if `octets` do not begin with a revocation list. Its position, if it
///   has one, is counted from the start of `octets`;
/// - `TrailingData`, if octets follow the revocation list.
///
/// The errors are the same as of `x509::CertificateList::from_der`, with one exception. If the
/// contents of the outermost element are cut, the error is `Incomplete` at the start of these
/// contents, and its `first` is the position at which they would end.
pub fn der_revocation_list_read<'a>(
    alloc: Global,
    octets: &'a [u8],
    list: &mut DerRevocationList<'a>,
) -> DerError
    ensures { ReadsWhole (WholeRead ⟦<CertificateList<'a> as FixedTag>⟧.tag_is
        ⟦<CertificateList<'a> as ReadValue>⟧.valid ⟦<CertificateList<'a> as WrittenValue>⟧.contents
        false ⟦<CertificateList<'a> as DecodeValue<SliceReader<'a>>>⟧.decode_value_answers)
        (IsRevocationListOf ⟦<TbsCertList<'a> as Encode>⟧.encoding) octets.now result list.old
        list.new }
{
    match lawful_from_der::<CertificateList<'a>>(alloc, octets) {
        Ok(value) => {
            *list = list_of(octets, &value);
            DerError::NONE
        }
        Err(error) => located_in(octets, error),
    }
}
