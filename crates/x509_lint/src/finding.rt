//! Rules that a certificate breaks.
use crate::place::Place;
use crate::rule::Rule;
use std::fmt;

/// A rule that a certificate breaks, and the place where the certificate breaks it.
#[derive(Clone, Copy, Debug, PartialEq, Eq)]
pub struct Finding {
    /// The rule that the certificate breaks.
    pub rule: Rule,
    /// The first place where the certificate breaks the rule.
    pub place: Place,
}

/// Prints the place, a colon, and how the certificate breaks the rule.
impl fmt::Display for Finding {
    fn fmt<W: fmt::Write>(&self, f: &mut fmt::Formatter<W>) -> fmt::Result {
        write!(f, "{}: {}", self.place, self.rule)
    }
}
