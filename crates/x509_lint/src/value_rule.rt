//! Rules for the values of extensions.
use crate::base_rule::BaseRule;
use crate::form_rule::FormRule;
use crate::point_rule::PointRule;
use crate::policy_rule::PolicyRule;
use std::fmt;

/// A rule for the values of extensions (RFC 5280, 4.2.1 and 4.2.2).
#[derive(Clone, Copy, Debug, PartialEq, Eq)]
pub enum ValueRule {
    /// The value must be an encoding of the type that RFC 5280 gives to the extension.
    Contents,
    /// A basicConstraints may have a pathLenConstraint only if its cA is true (RFC 5280, 4.2.1.9).
    PathLengthOfAuthority,
    /// The pathLenConstraint of a basicConstraints must not be negative (RFC 5280, 4.2.1.9).
    PathLength,
    /// The numbers of a policyConstraints must not be negative (RFC 5280, 4.2.1.11).
    PolicyNumbers,
    /// The number of an inhibitAnyPolicy must not be negative (RFC 5280, 4.2.1.14).
    AnyPolicyNumber,
    /// No policy may occur twice in a certificatePolicies (RFC 5280, 4.2.1.4).
    DistinctPolicies,
    /// A policyMappings must not name anyPolicy (RFC 5280, 4.2.1.5).
    Mappings,
    /// Each distribution point must have a distributionPoint or a cRLIssuer (RFC 5280, 4.2.1.13).
    Points,
    /// Each subtree of a nameConstraints must have neither minimum nor maximum (RFC 5280,
    /// 4.2.1.10).
    Subtrees,
    /// The permittedSubtrees and the excludedSubtrees of a nameConstraints must not be empty, if
    /// they are present (RFC 5280, 4.2.1.10).
    SubtreesPresent,
    /// Each location of an authorityInfoAccess or a subjectInfoAccess must have a scheme, if the
    /// location is a URI (RFC 5280, 4.2.2).
    Locations,
    /// An authorityKeyIdentifier must have both an authorityCertIssuer and an
    /// authorityCertSerialNumber, or neither of them (RFC 5280, 4.2.1.1).
    IssuerAndSerial,
    /// The qualifiers of a certificatePolicies must keep this rule for qualifiers (RFC 5280,
    /// 4.2.1.4).
    Policies(PolicyRule),
    /// The fields of the distribution points must keep this rule for distribution points (RFC 5280,
    /// 4.2.1.13).
    PointFields(PointRule),
    /// The bases of the subtrees of a nameConstraints must keep this rule for bases (RFC 5280,
    /// 4.2.1.10).
    Bases(BaseRule),
    /// Each name of a subjectAltName or an issuerAltName must keep this rule for names (RFC 5280,
    /// 4.2.1.6, 4.2.1.7).
    Names(FormRule),
}

impl fmt::Display for ValueRule {
    fn fmt<W: fmt::Write>(&self, f: &mut fmt::Formatter<W>) -> fmt::Result {
        f.write_str(match self {
            ValueRule::Contents => "the value of an extension is malformed (RFC 5280, 4.2)",
            ValueRule::PathLengthOfAuthority => {
                "a pathLenConstraint is present, but cA is not true (RFC 5280, 4.2.1.9)"
            }
            ValueRule::PathLength => "a pathLenConstraint is negative (RFC 5280, 4.2.1.9)",
            ValueRule::PolicyNumbers => {
                "a number of a policyConstraints is negative (RFC 5280, 4.2.1.11)"
            }
            ValueRule::AnyPolicyNumber => "an inhibitAnyPolicy is negative (RFC 5280, 4.2.1.14)",
            ValueRule::DistinctPolicies => "a policy occurs twice (RFC 5280, 4.2.1.4)",
            ValueRule::Mappings => "a policyMappings names anyPolicy (RFC 5280, 4.2.1.5)",
            ValueRule::Points => {
                "a distribution point has neither a name nor an issuer (RFC 5280, 4.2.1.13)"
            }
            ValueRule::Subtrees => { "a subtree has a minimum or a maximum (RFC 5280, 4.2.1.10)" }
            ValueRule::SubtreesPresent => "a list of subtrees is empty (RFC 5280, 4.2.1.10)",
            ValueRule::Locations => {
                "the URI of an access description has no scheme (RFC 5280, 4.2.2)"
            }
            ValueRule::IssuerAndSerial => {
                "an issuer is identified without a serial number, or the reverse (RFC 5280, 4.2.1.1)"
            }
            ValueRule::Policies(rule) => return write!(f, "{rule}"),
            ValueRule::PointFields(rule) => return write!(f, "{rule}"),
            ValueRule::Bases(rule) => return write!(f, "{rule}"),
            ValueRule::Names(rule) => return write!(f, "{rule}"),
        })
    }
}
