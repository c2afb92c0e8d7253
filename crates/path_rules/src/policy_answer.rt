//! The answer for the policies of a path.

use crate::policy_fault::PolicyFault;
use crate::valid_policies::ValidPolicies;

/// What the rules say of the policies of a path.
#[derive(Clone, Copy, Debug, Drop, PartialEq, Eq)]
pub enum PolicyAnswer {
    /// The policies keep all rules.
    Valid(ValidPolicies),
    /// The path has no certificate.
    Empty,
    /// A certificate breaks a rule. This is the first one that breaks any.
    Broken(PolicyFault),
    /// The room is too small, so nothing is known.
    NoRoom,
}
