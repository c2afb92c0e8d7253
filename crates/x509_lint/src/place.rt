//! Where a certificate breaks a rule.
use std::fmt;

/// The place where a certificate breaks a rule. The numbers are indices, counted from 0.
#[derive(Clone, Copy, Debug, PartialEq, Eq)]
pub enum Place {
    /// The rule is about the certificate as a whole, not about one of its parts.
    Certificate,
    /// The index, in a name, of the first RelativeDistinguishedName that breaks the rule. The rule
    /// says whether the name is the name of the issuer or of the subject.
    Level(usize),
    /// Two indices. The first one gives the first RelativeDistinguishedName of a name that has an
    /// attribute that breaks the rule. The second one gives the first of these attributes in this
    /// RelativeDistinguishedName.
    Attribute(usize, usize),
    /// The index of the first extension that breaks the rule, in the certificate's list of
    /// extensions.
    Extension(usize),
}

impl fmt::Display for Place {
    fn fmt<W: fmt::Write>(&self, f: &mut fmt::Formatter<W>) -> fmt::Result {
        match self {
            Place::Certificate => f.write_str("certificate"),
            Place::Level(place) => write!(f, "level {place}"),
            Place::Attribute(level, place) => write!(f, "attribute {place} of level {level}"),
            Place::Extension(place) => write!(f, "extension {place}"),
        }
    }
}
