//! Written by asn1_compile from the module CMS: change the module instead.
//!
//! TimeStampToken.

use crate::asn1::content_info::ContentInfo;

/// A timestamp (RFC 3161, 2.4.2): a SignedData whose content is a TSTInfo. Decoding does not check
/// this.
pub type TimeStampToken<'a> = ContentInfo<'a>;
