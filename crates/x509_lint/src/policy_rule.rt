//! Rules for the qualifiers of policies.
use std::fmt;

/// A rule for the qualifiers of a certificatePolicies (RFC 5280, 4.2.1.4; RFC 6818, 3).
#[derive(Clone, Copy, Debug, PartialEq, Eq)]
pub enum PolicyRule {
    /// The policy anyPolicy may have no other qualifiers than CPS pointers and user notices.
    Qualifiers,
    /// The text of a user notice must not be an IA5String. This is a sentence of RFC 6818, which
    /// updates RFC 5280: that RFC allowed an IA5String, and no VisibleString or BMPString.
    TextTypes,
    /// The text of a user notice must have 1 to 200 characters.
    TextLengths,
    /// A CPS pointer must be a URI.
    Pointers,
}

impl fmt::Display for PolicyRule {
    fn fmt<W: fmt::Write>(&self, f: &mut fmt::Formatter<W>) -> fmt::Result {
        f.write_str(match self {
            PolicyRule::Qualifiers => "anyPolicy has an unknown qualifier (RFC 5280, 4.2.1.4)",
            PolicyRule::TextTypes => "the text of a user notice is an IA5String (RFC 6818, 3)",
            PolicyRule::TextLengths => {
                "the text of a user notice has not 1 to 200 characters (RFC 5280, 4.2.1.4)"
            }
            PolicyRule::Pointers => "a CPS pointer is no URI (RFC 5280, 4.2.1.4)",
        })
    }
}
