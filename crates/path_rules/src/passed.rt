//! What becomes of a certificate of a path.

use crate::policy_rule::PolicyRule;
use crate::state::State;
use crate::valid_policies::ValidPolicies;

// What becomes of a certificate that issues another.
#[derive(Clone, Copy, Debug, Drop)]
pub(crate) enum Passed {
    // It keeps all rules, and this is known after it.
    Next(State),
    // It breaks this rule.
    Broken(PolicyRule),
    // The room is too small.
    NoRoom,
}

// What becomes of the last certificate.
#[derive(Clone, Copy, Debug, Drop)]
pub(crate) enum Ended {
    // It keeps all rules.
    Valid(ValidPolicies),
    // It breaks this rule.
    Broken(PolicyRule),
    // The room is too small.
    NoRoom,
}
