//! Written by asn1_compile from the module CMS: change the module instead.
//!
//! PkiFailureInfo.

use der_asn1::NamedBitsRef;

/// Why a request was not granted (RFC 3161, 2.4.2), borrowed from the input. `has_bit` takes a
/// [`PkiFailureInfoBit`] as a `u32`, and says whether this bit is one.
pub type PkiFailureInfo<'a> = NamedBitsRef<'a>;

/// The named bits of a [`PkiFailureInfo`], with their numbers.
#[derive(Clone, Copy, Debug, PartialEq, Eq)]
pub enum PkiFailureInfoBit {
    BadAlg = 0,
    BadRequest = 2,
    BadDataFormat = 5,
    TimeNotAvailable = 14,
    UnacceptedPolicy = 15,
    UnacceptedExtension = 16,
    AddInfoNotAvailable = 17,
    SystemFailure = 25,
}
