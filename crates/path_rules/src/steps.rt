//! The steps for the policies of a certificate.
ghost use Rattle.std.specs.Prelude.{◌≡◌, ◌↔◌, ◌≤◌, ◌<◌, ◌+◌, false, List, length, take, IsTrue};
ghost use Rattle.path_rules.specs.States.{IsDepth, IsState};
ghost use Rattle.path_rules.specs.Steps.{EndFits, GoesOnFits, IsEnded, IsNext, IsPassed, PassFits};
ghost use Rattle.path_rules.specs.declared.counters.Counters.{Counters as ACounters};
ghost use Rattle.path_rules.specs.declared.node.Node.{Node as ANode};
ghost use Rattle.path_rules.specs.declared.policy_facts.PolicyFacts.{PolicyFacts as APolicyFacts};

use crate::asked::{broken_policy, has_allowed_nodes};
use crate::counters::next_counters;
use crate::node::Node;
use crate::nodes::put_expected;
use crate::passed::{Ended, Passed};
use crate::policy_facts::PolicyFacts;
use crate::policy_inputs::PolicyInputs;
use crate::reach::depth_of;
use crate::state::{Depth, State};
use crate::valid_policies::ValidPolicies;

// Goes past a certificate that issues another (RFC 5280, 6.1.3 (d) to (f) and 6.1.4 (a), (b), (h) to
// (j)). The policies that are expected are at the front of `expected`, before and afterwards.
pub(crate) fn pass<'a>(
    facts: &PolicyFacts<'a>,
    inputs: &PolicyInputs<'_>,
    state: State,
    expected: &mut [Node<'a>],
    nodes: &mut [Node<'a>],
) -> Passed
    requires { state.count ≤ length expected.old }
    ensures fits { PassFits facts.now state.count (length expected.old) (length nodes.old) result }
    ensures passed { (start : ACounters) (before : List APolicyFacts)
        → IsState start inputs.now.allowed.now before state (take state.count expected.old)
        → IsPassed start inputs.now.allowed.now facts.now before expected.new result }
{
    let front = &expected[..state.count];
    let Some(depth) = depth_of(facts, inputs.allowed, false, state, front, nodes) else {
        return Passed::NoRoom;
    };
    let here = &nodes[..depth.count];
    let explicit = state.counters.explicit;
    let broken = broken_policy(facts, false, explicit, depth.has_any, here, inputs.allowed);
    if let Some(rule) = broken {
        return Passed::Broken(rule);
    }
    go_on(facts, inputs, state, depth, here, expected)
}

// Puts the policies that the nodes of a certificate expect into a room, and makes the state after it.
fn go_on<'a>(
    facts: &PolicyFacts<'a>,
    inputs: &PolicyInputs<'_>,
    state: State,
    depth: Depth,
    nodes: &[Node<'a>],
    room: &mut [Node<'a>],
) -> Passed
    ensures fits { GoesOnFits facts.now (length nodes.now) (length room.old) result }
    ensures passed { (start : ACounters) (before : List APolicyFacts) (expected : List ANode)
        → IsState start inputs.now.allowed.now before state expected
        → IsDepth start inputs.now.allowed.now false facts.now before depth nodes.now
        → IsNext start inputs.now.allowed.now facts.now before room.new result }
{
    let may_map = is_above_zero(state.counters.mapping);
    let has_any = depth.has_any;
    let Some(count) = put_expected(facts, inputs.allowed, may_map, has_any, nodes, room) else {
        return Passed::NoRoom;
    };
    let counters = next_counters(facts, state.counters);
    Passed::Next(State {
        counters,
        has_any,
        count,
    })
}

fn is_above_zero(count: u64) -> bool
    ensures { IsTrue result ↔ (0 < count) }
{
    count > 0
}

// Goes to the end of the path, with its last certificate (RFC 5280, 6.1.3 (d) to (f) and 6.1.5 (a),
// (b), (g)).
pub(crate) fn end<'a>(
    facts: &PolicyFacts<'a>,
    inputs: &PolicyInputs<'_>,
    state: State,
    expected: &[Node<'a>],
    room: &mut [Node<'a>],
) -> Ended
    ensures fits { EndFits facts.now (length expected.now) (length room.old) result }
    ensures ended { (start : ACounters) (before : List APolicyFacts)
        → IsState start inputs.now.allowed.now before state expected.now
        → IsEnded start inputs.now.allowed.now facts.now before result }
{
    let Some(depth) = depth_of(facts, inputs.allowed, true, state, expected, room) else {
        return Ended::NoRoom;
    };
    let here = &room[..depth.count];
    let explicit = state.counters.explicit;
    let has_any_policy = depth.has_any;
    let broken = broken_policy(facts, true, explicit, has_any_policy, here, inputs.allowed);
    if let Some(rule) = broken {
        return Ended::Broken(rule);
    }
    let has_allowed = has_allowed_nodes(here);
    Ended::Valid(ValidPolicies {
        has_any_policy,
        has_allowed,
    })
}
