//! The policies of a path.
ghost use Rattle.std.specs.Prelude.{◌≡◌, ◌≤◌, ◌<◌, ◌+◌, ◌*◌, ℕ, length};
ghost use Rattle.path_rules.specs.PolicyRules.{IsPolicyAnswer};

use crate::counters::first_counters;
use crate::node::Node;
use crate::passed::{Ended, Passed};
use crate::policy_answer::PolicyAnswer;
use crate::policy_facts::PolicyFacts;
use crate::policy_fault::PolicyFault;
use crate::policy_inputs::PolicyInputs;
use crate::state::State;
use crate::steps::{end, pass};

/// Whether the policies of a path keep all rules, or the first fault. The first certificate is the
/// one that the trust anchor issued, and the last the one to be validated. The nodes of one depth of
/// the policy graph go into the room. Room for twice as many as the path has policies and mappings
/// always suffices. What the room held is lost.
pub fn policies_answer<'a>(
    path: &[PolicyFacts<'a>],
    inputs: &PolicyInputs<'_>,
    room: &mut [Node<'a>],
) -> PolicyAnswer
    ensures { IsPolicyAnswer result inputs.now path.now (length room.old) }
{
    if path.len() == 0 {
        return PolicyAnswer::Empty;
    }
    let (expected, nodes) = room.split_at_mut(room.len() / 2);
    walk(path, inputs, expected, nodes)
}

// The answer for a path that is not empty, with two rooms: one for the policies that are expected,
// and one for the nodes of a depth.
fn walk<'a>(
    path: &[PolicyFacts<'a>],
    inputs: &PolicyInputs<'_>,
    expected: &mut [Node<'a>],
    nodes: &mut [Node<'a>],
) -> PolicyAnswer
    requires { 0 < length path.now }
    ensures { (room : ℕ) → room < 2 * (length expected.old + 1) → room < 2 * (length nodes.old + 1)
        → IsPolicyAnswer result inputs.now path.now room }
{
    let counters = first_counters(inputs, path.len() as u64);
    let mut state = State {
        counters,
        has_any: true,
        count: 0,
    };
    let last = path.len() - 1;
    for at in 0..last {
        match pass(&path[at], inputs, state, expected, nodes) {
            Passed::Next(next) => state = next,
            Passed::Broken(rule) => return PolicyAnswer::Broken(PolicyFault { at, rule }),
            Passed::NoRoom => return PolicyAnswer::NoRoom,
        }
    }
    match end(&path[last], inputs, state, &expected[..state.count], nodes) {
        Ended::Valid(valid) => PolicyAnswer::Valid(valid),
        Ended::Broken(rule) => PolicyAnswer::Broken(PolicyFault { at: last, rule }),
        Ended::NoRoom => PolicyAnswer::NoRoom,
    }
}
