//! Written by asn1_compile from the module X509: change the module instead.
//!
//! KeyUsage.

use der_asn1::NamedBitsRef;

/// What a public key may be used for (RFC 5280, 4.2.1.3), borrowed from the input. `has_bit` takes
/// a [`KeyUsageBit`] as a `u32`, and says whether this bit is one.
pub type KeyUsage<'a> = NamedBitsRef<'a>;

/// The named bits of a [`KeyUsage`], with their numbers.
#[derive(Clone, Copy, Debug, PartialEq, Eq)]
pub enum KeyUsageBit {
    DigitalSignature = 0,
    NonRepudiation = 1,
    KeyEncipherment = 2,
    DataEncipherment = 3,
    KeyAgreement = 4,
    KeyCertSign = 5,
    CrlSign = 6,
    EncipherOnly = 7,
    DecipherOnly = 8,
}
