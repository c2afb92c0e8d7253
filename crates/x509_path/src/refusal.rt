//! Why a path is refused.

use path_rules::Fault;
use std::fmt;

/// Why a path is refused, whatever its signatures are.
#[derive(Clone, Copy, Debug, Drop, PartialEq, Eq)]
pub enum Refusal {
    /// The path has no certificate.
    Empty,
    /// A certificate breaks a rule. This is the first one that breaks any, and its first rule.
    Broken(Fault),
}

impl fmt::Display for Refusal {
    fn fmt<W: fmt::Write>(&self, f: &mut fmt::Formatter<W>) -> fmt::Result {
        match self {
            Refusal::Empty => f.write_str("the path has no certificate"),
            Refusal::Broken(fault) => write!(f, "certificate {}: {}", fault.at, fault.rule),
        }
    }
}
