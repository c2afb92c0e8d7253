//! Rules for the attributes of names.
use std::fmt;

/// A rule for the attributes of names (RFC 5280, 4.1.2.4).
#[derive(Clone, Copy, Debug, PartialEq, Eq)]
pub enum AttributeRule {
    /// The value must have a number of characters within the bounds that RFC 5280, A.1, gives for
    /// the type of the attribute. The rule holds if A.1 has no bounds for the type.
    Length,
    /// The value must have only characters of the string type that its tag names.
    Characters,
    /// The value must have a string type that RFC 5280, A.1, allows for the type of the attribute.
    StringType,
}

impl fmt::Display for AttributeRule {
    fn fmt<W: fmt::Write>(&self, f: &mut fmt::Formatter<W>) -> fmt::Result {
        f.write_str(match self {
            AttributeRule::Length => {
                "an attribute has fewer or more characters than its type allows (RFC 5280, A.1)"
            }
            AttributeRule::StringType => {
                "an attribute has a string type that its type does not allow (RFC 5280, A.1)"
            }
            AttributeRule::Characters => {
                "an attribute has a character that its string type does not have (X.680, 41)"
            }
        })
    }
}
