//! The fault of a path.

use crate::rule::Rule;

/// A fault of a path: the first certificate that breaks a rule, and the first rule of
/// [`RULES`](crate::RULES) that it breaks.
#[derive(Clone, Copy, Debug, Drop, PartialEq, Eq)]
pub struct Fault {
    /// The index of the certificate in the path. If the rule is [`Rule::PathLength`], it is the one
    /// whose pathLenConstraint is too small.
    pub at: usize,
    /// The rule.
    pub rule: Rule,
}
