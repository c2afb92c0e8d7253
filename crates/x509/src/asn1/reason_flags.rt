//! Written by asn1_compile from the module X509: change the module instead.
//!
//! ReasonFlags.

use der_asn1::NamedBitsRef;

/// Reasons for a revocation (RFC 5280, 4.2.1.13), borrowed from the input. `has_bit` takes a
/// [`ReasonFlagsBit`] as a `u32`, and says whether this bit is one.
pub type ReasonFlags<'a> = NamedBitsRef<'a>;

/// The named bits of a [`ReasonFlags`], with their numbers.
#[derive(Clone, Copy, Debug, PartialEq, Eq)]
pub enum ReasonFlagsBit {
    Unused = 0,
    KeyCompromise = 1,
    CaCompromise = 2,
    AffiliationChanged = 3,
    Superseded = 4,
    CessationOfOperation = 5,
    CertificateHold = 6,
    PrivilegeWithdrawn = 7,
    AaCompromise = 8,
}
