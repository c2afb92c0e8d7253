//! The rules for the policies of a path.

use std::fmt;

/// A rule of RFC 5280 for the policies of a path. `Display` writes what a certificate that breaks it
/// lacks, and the section.
#[derive(Clone, Copy, Debug, Drop, PartialEq, Eq)]
pub enum PolicyRule {
    /// Where an explicit policy is required, the path has a policy up to this certificate (6.1.3
    /// (f)).
    Explicit,
    /// No certificate but the last maps anyPolicy, or a policy to anyPolicy (6.1.4 (a)).
    Mapping,
    /// Where an explicit policy is required at the end, the path has one that is allowed (6.1.5
    /// (g)).
    Allowed,
}

/// All rules for policies, in the order in which they are checked for each certificate.
pub const POLICY_RULES: [PolicyRule; 3] = [
    PolicyRule::Explicit,
    PolicyRule::Mapping,
    PolicyRule::Allowed,
];

impl PolicyRule {
    /// The section of RFC 5280 that has the rule.
    pub fn section(self) -> &'static str {
        match self {
            PolicyRule::Explicit => "6.1.3 (f)",
            PolicyRule::Mapping => "6.1.4 (a)",
            PolicyRule::Allowed => "6.1.5 (g)",
        }
    }

    // What a certificate that breaks the rule lacks.
    fn refusal(self) -> &'static str {
        match self {
            PolicyRule::Explicit => "a policy is required, and the path has none",
            PolicyRule::Mapping => "anyPolicy is mapped",
            PolicyRule::Allowed => "a policy is required, and the path has none that is allowed",
        }
    }
}

impl fmt::Display for PolicyRule {
    fn fmt<W: fmt::Write>(&self, f: &mut fmt::Formatter<W>) -> fmt::Result {
        let rule = *self;
        f.write_str(rule.refusal())?;
        f.write_str(" (RFC 5280, ")?;
        f.write_str(rule.section())?;
        f.write_str(")")
    }
}
