//! The fault of the policies of a path.

use crate::policy_rule::PolicyRule;

/// A fault of the policies of a path: the first certificate that breaks a rule, and the first rule of
/// [`POLICY_RULES`](crate::POLICY_RULES) that it breaks.
#[derive(Clone, Copy, Debug, Drop, PartialEq, Eq)]
pub struct PolicyFault {
    /// The index of the certificate in the path.
    pub at: usize,
    /// The rule.
    pub rule: PolicyRule,
}
