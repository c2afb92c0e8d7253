//! Rules for names.
use crate::attribute_rule::AttributeRule;
use std::fmt;

/// A rule for names (RFC 5280, 4.1.2.4).
#[derive(Clone, Copy, Debug, PartialEq, Eq)]
pub enum NameRule {
    /// Each RelativeDistinguishedName of the name must have an attribute (RFC 5280, 4.1.2.4).
    Levels,
    /// Each attribute of the name must keep this rule for attributes.
    Attributes(AttributeRule),
}

impl fmt::Display for NameRule {
    fn fmt<W: fmt::Write>(&self, f: &mut fmt::Formatter<W>) -> fmt::Result {
        match self {
            NameRule::Levels => f.write_str("a level has no attribute (RFC 5280, 4.1.2.4)"),
            NameRule::Attributes(rule) => write!(f, "{rule}"),
        }
    }
}
