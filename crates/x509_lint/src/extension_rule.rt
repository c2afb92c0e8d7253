//! Rules for extensions.
use crate::value_rule::ValueRule;
use std::fmt;

/// A rule for extensions (RFC 5280, 4.2).
#[derive(Clone, Copy, Debug, PartialEq, Eq)]
pub enum ExtensionRule {
    /// No other extension may have the same identifier as this extension (RFC 5280, 4.2).
    Instances,
    /// The extension must be critical, if it is one of the extensions that RFC 5280 requires to be
    /// critical.
    Critical,
    /// The extension must not be critical, if it is one of the extensions that RFC 5280 requires to
    /// be non-critical.
    NotCritical,
    /// The value must not be an empty SEQUENCE, if RFC 5280 requires that this SEQUENCE has an
    /// element.
    NotEmpty,
    /// If the extension is a keyUsage, one of its bits must be one (RFC 5280, 4.2.1.3).
    Usage,
    /// If the extension is a basicConstraints whose cA is true, the extension must be critical (RFC
    /// 5280, 4.2.1.9).
    AuthorityCritical,
    /// The value of the extension must keep this rule (RFC 5280, 4.2.1, 4.2.2).
    Value(ValueRule),
}

impl fmt::Display for ExtensionRule {
    fn fmt<W: fmt::Write>(&self, f: &mut fmt::Formatter<W>) -> fmt::Result {
        f.write_str(match self {
            ExtensionRule::Instances => {
                "another extension has the same identifier (RFC 5280, 4.2)"
            }
            ExtensionRule::Critical => {
                "an extension is not critical, but must be (RFC 5280, 4.2.1)"
            }
            ExtensionRule::NotCritical => {
                "an extension is critical, but must not be (RFC 5280, 4.2.1 and 4.2.2)"
            }
            ExtensionRule::NotEmpty => {
                "an extension has no elements (RFC 5280, 4.2.1 and 4.2.2)"
            }
            ExtensionRule::Usage => "a keyUsage has no bit that is one (RFC 5280, 4.2.1.3)",
            ExtensionRule::AuthorityCritical => {
                "the basicConstraints of an authority is not critical (RFC 5280, 4.2.1.9)"
            }
            ExtensionRule::Value(rule) => return write!(f, "{rule}"),
        })
    }
}
