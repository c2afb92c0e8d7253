//! The policies for which a path is valid.
ghost use Rattle.std.specs.Prelude.{◌≡◌, ◌↔◌, ◌<◌, ◌*◌, [], length, IsTrue, MatchOption};
ghost use Rattle.path_rules.specs.Counters.{first_counters};
ghost use Rattle.path_rules.specs.PolicyRules.{PoliciesHold, entries, onto};
ghost use Rattle.path_rules.specs.PolicySets.{IsAuthorityPolicy};

use crate::node::Node;
use crate::policies::is_any_policy;
use crate::policy_answer::PolicyAnswer;
use crate::policy_facts::PolicyFacts;
use crate::policy_inputs::PolicyInputs;
use crate::policy_path::policies_answer;

/// Whether a policy is in the authority-constrained policy set of a path whose policies hold (RFC
/// 9618, 6.1.5 (g)). The user-constrained policy set has the allowed policies of this set, and all
/// that are allowed if anyPolicy is in it. Of another path the answer says nothing. `None` if the
/// room is smaller than twice the number of policies and mappings, and too small.
pub fn is_authority_policy<'a>(
    path: &[PolicyFacts<'a>],
    inputs: &PolicyInputs<'_>,
    policy: &[u8],
    room: &mut [Node<'a>],
) -> Option<bool>
    ensures { MatchOption result (length room.old < 2 * entries path.now)
        (λ b. (holds : PoliciesHold (first_counters inputs.now (length path.now))
        inputs.now.allowed.now path.now)
        → IsTrue b ↔ IsAuthorityPolicy (first_counters inputs.now (length path.now)) holds.target
        (onto [] holds.issuers) policy.now) }
{
    let allowed = [policy];
    let asked = PolicyInputs {
        allowed: &allowed,
        inhibits_mapping: inputs.inhibits_mapping,
        requires_explicit: inputs.requires_explicit,
        inhibits_any: inputs.inhibits_any,
    };
    match policies_answer(path, &asked, room) {
        PolicyAnswer::Valid(valid) => {
            if is_any_policy(policy) {
                return Some(valid.has_any_policy);
            }
            Some(valid.has_allowed)
        }
        PolicyAnswer::NoRoom => None,
        PolicyAnswer::Empty => Some(false),
        PolicyAnswer::Broken(_) => Some(false),
    }
}
