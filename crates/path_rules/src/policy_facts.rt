//! What the rules for policies ask of a certificate.

use crate::mapping::Mapping;

/// What the rules for policies ask of one certificate of a path (RFC 5280, 6.1.3 (d) to 6.1.5 (b)).
/// A policy is the contents octets of its OBJECT IDENTIFIER. Policies are compared octet by octet.
#[derive(Clone, Copy, Debug, Drop)]
pub struct PolicyFacts<'a> {
    /// The policies of certificatePolicies, with anyPolicy if it is among them. Empty if the
    /// certificate has no such extension.
    pub policies: &'a [&'a [u8]],
    /// The pairs of policyMappings. Empty if the certificate has no such extension.
    pub mappings: &'a [Mapping<'a>],
    /// requireExplicitPolicy of policyConstraints, if there is one. A number above `u64::MAX` is
    /// `u64::MAX`.
    pub require_explicit: Option<u64>,
    /// inhibitPolicyMapping of policyConstraints, if there is one. A number above `u64::MAX` is
    /// `u64::MAX`.
    pub inhibit_mapping: Option<u64>,
    /// The number of inhibitAnyPolicy, if there is one. A number above `u64::MAX` is `u64::MAX`.
    pub inhibit_any: Option<u64>,
    /// Whether the issuer is the subject (6.1), as in the [`Facts`](crate::Facts) of the
    /// certificate.
    pub is_self_issued: bool,
}
