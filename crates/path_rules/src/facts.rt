//! What the rules for paths ask of a certificate.

use crate::version::Version;

/// What the rules for paths ask of one certificate of a path, and of its place in the path. Section
/// numbers are those of RFC 5280.
#[derive(Clone, Copy, Debug, Drop, PartialEq, Eq)]
pub struct Facts {
    /// Whether signatureAlgorithm is the signature of the tbsCertificate (4.1.1.2).
    pub has_same_algorithms: bool,
    /// The version (4.1.2.1).
    pub version: Version,
    /// Whether there is an issuerUniqueID or a subjectUniqueID (4.1.2.8).
    pub has_unique_identifiers: bool,
    /// Whether there are extensions (4.1.2.9).
    pub has_extensions: bool,
    /// Whether no extension occurs twice (4.2).
    pub has_distinct_extensions: bool,
    /// Whether the time of the validation is within the validity period (6.1.3 (a) (2)).
    pub is_current: bool,
    /// Whether the issuer is the subject of the certificate before, or the name of the trust anchor
    /// (6.1.3 (a) (4)).
    pub is_chained: bool,
    /// Whether the nameConstraints of the certificates before, those of the trust anchor, and the
    /// subtrees that the user gives (6.1.1 (h), (i)) permit all names and exclude none (6.1.3 (b),
    /// (c)).
    pub is_permitted: bool,
    /// Whether the issuer is the subject (6.1), as in the
    /// [`PolicyFacts`](crate::PolicyFacts) of the certificate.
    pub is_self_issued: bool,
    /// Whether there is a basicConstraints whose cA is true (6.1.4 (k)).
    pub is_authority: bool,
    /// Whether the caller knows by other means that a certificate of version 1 or 2 is that of an
    /// authority (6.1.4 (k)). Without such means it is false.
    pub is_known_authority: bool,
    /// The pathLenConstraint of the basicConstraints, if there is one (6.1.4 (m)). A number above
    /// `u64::MAX` is `u64::MAX`, which no path exceeds.
    pub path_limit: Option<u64>,
    /// Whether there is no keyUsage, or one with the bit keyCertSign (6.1.4 (n)).
    pub may_sign: bool,
    /// Whether all critical extensions are processed (6.1.4 (o), 6.1.5 (f)).
    pub is_understood: bool,
}
