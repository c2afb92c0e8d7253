//! Written by asn1_compile from the module PKCS-12: change the module instead.
//!
//! AuthenticatedSafe.

use cms::ContentInfo;
use der_asn1::SequenceOf;

/// The parts of a file (RFC 7292, 4.1). A part is data that are not encrypted, an EncryptedData
/// (with a password) or an EnvelopedData (with a public key). The octets of a part, after
/// decryption if it is encrypted, are the DER encoding of a SafeContents.
pub type AuthenticatedSafe<'a> = SequenceOf<'a, ContentInfo<'a>>;
