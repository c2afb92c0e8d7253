//! The octets of an encrypted content.

use der_segments::ImplicitSegmented;

/// The octets of an encrypted content (RFC 5652, 6.1): an OCTET STRING with the tag `[0]` IMPLICIT,
/// borrowed from the input. Under the Basic Encoding Rules the string may be in segments.
pub type EncryptedOctets<'a> = ImplicitSegmented<'a, 0>;
