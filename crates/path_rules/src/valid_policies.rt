//! The policies of a path that are valid.

/// What is said of a path whose policies hold (RFC 9618, 6.1.5 (g)).
#[derive(Clone, Copy, Debug, Drop, PartialEq, Eq)]
pub struct ValidPolicies {
    /// Whether the path is valid for any policy: anyPolicy is in the authority-constrained policy
    /// set.
    pub has_any_policy: bool,
    /// Whether a policy of the authority-constrained policy set other than anyPolicy is allowed.
    pub has_allowed: bool,
}
