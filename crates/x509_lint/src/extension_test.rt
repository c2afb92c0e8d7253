//! Kinds of extensions to search for.

/// The kind of extension to search for in a certificate or in a revocation list.
#[derive(Clone, Copy, Debug, PartialEq, Eq)]
pub enum ExtensionTest {
    /// Searches for a critical subjectAltName (RFC 5280, 4.2.1.6).
    CriticalAltName,
    /// Searches for a keyUsage (RFC 5280, 4.2.1.3).
    KeyUsage,
    /// Searches for a keyUsage with the bit keyCertSign (RFC 5280, 4.2.1.3).
    CertSign,
    /// Searches for a subjectKeyIdentifier (RFC 5280, 4.2.1.2).
    SubjectKeyIdentifier,
    /// Searches for an authorityKeyIdentifier with a keyIdentifier (RFC 5280, 4.2.1.1).
    KeyIdentifier,
    /// Searches for a nameConstraints (RFC 5280, 4.2.1.10).
    NameConstraints,
    /// Searches for a basicConstraints whose cA is true (RFC 5280, 4.2.1.9).
    Authority,
    /// Searches for a basicConstraints with a pathLenConstraint (RFC 5280, 4.2.1.9).
    PathLength,
    /// Searches for a cRLNumber (RFC 5280, 5.2.3).
    Number,
    /// Searches for a critical cRLNumber (RFC 5280, 5.2.3).
    CriticalNumber,
    /// Searches for a deltaCRLIndicator that is not critical (RFC 5280, 5.2.4).
    PlainDelta,
    /// Searches for an issuingDistributionPoint that is not critical (RFC 5280, 5.2.5).
    PlainPoint,
    /// Searches for a critical freshestCRL (RFC 5280, 5.2.6).
    CriticalFreshest,
    /// Searches for a freshestCRL (RFC 5280, 5.2.6).
    Freshest,
    /// Searches for a deltaCRLIndicator (RFC 5280, 5.2.4).
    Delta,
    /// Searches for a critical authorityInfoAccess (RFC 5280, 5.2.7).
    CriticalAccess,
    /// Searches for a cRLNumber whose INTEGER has more than 20 contents octets (RFC 5280, 5.2.3).
    LongNumber,
    /// Searches for an issuingDistributionPoint with more than one of the fields
    /// onlyContainsUserCerts, onlyContainsCACerts and onlyContainsAttributeCerts (RFC 5280, 5.2.5).
    MixedPoint,
    /// Searches for an issuingDistributionPoint that is an empty SEQUENCE (RFC 5280, 5.2.5).
    EmptyPoint,
    /// Searches for an issuingDistributionPoint with the field indirectCRL (RFC 5280, 5.2.5).
    IndirectPoint,
}
