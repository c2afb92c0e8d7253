//! The depth of a certificate in the policy graph.
ghost use Rattle.std.specs.Prelude.{◌≡◌, ◌↔◌, ◌⊎◌, ◌≤◌, ◌<◌, ◌+◌, false, true, List, length, take, IsTrue, IfSome, IfNone};
ghost use Rattle.path_rules.specs.Policies.{IsIn};
ghost use Rattle.path_rules.specs.States.{IsDepth, IsState};
ghost use Rattle.path_rules.specs.declared.counters.Counters.{Counters as ACounters};
ghost use Rattle.path_rules.specs.declared.policy_facts.PolicyFacts.{PolicyFacts as APolicyFacts};

use crate::node::Node;
use crate::nodes::put_nodes;
use crate::policies::{ANY_POLICY, has_any_policy};
use crate::policy_facts::PolicyFacts;
use crate::state::{Depth, State};

// Whether anyPolicy of a certificate counts (RFC 5280, 6.1.3 (d) (2)).
fn any_counts(facts: &PolicyFacts<'_>, any: u64, is_last: bool) -> bool
    ensures { IsTrue result ↔ (IsIn facts.now.policies.now ANY_POLICY
        × ((0 < any) ⊎ ((is_last ≡ false) × (facts.now.is_self_issued ≡ true)))) }
{
    has_any_policy(facts.policies) && (any > 0 || !is_last && facts.is_self_issued)
}

// Puts the nodes of a certificate's depth into a room. `None` if there is no room.
pub(crate) fn depth_of<'a>(
    facts: &PolicyFacts<'a>,
    allowed: &[&[u8]],
    is_last: bool,
    state: State,
    expected: &[Node<'a>],
    room: &mut [Node<'a>],
) -> Option<Depth>
    ensures fits { IfSome result (λ d. (d.count ≤ length room.old)
        × (d.count ≤ length expected.now + length facts.now.policies.now)) }
    ensures some { IfSome result (λ d. (start : ACounters) (before : List APolicyFacts)
        → IsState start allowed.now before state expected.now
        → IsDepth start allowed.now is_last facts.now before d (take d.count room.new)) }
    ensures none { IfNone result
        (length room.old < length expected.now + length facts.now.policies.now) }
{
    let counts = any_counts(facts, state.counters.any, is_last);
    let count = put_nodes(facts, allowed, counts, state.has_any, expected, room)?;
    let has_any = are_both(counts, state.has_any);
    Some(Depth { has_any, count })
}

fn are_both(one: bool, other: bool) -> bool
    ensures { IsTrue result ↔ (IsTrue one × IsTrue other) }
{
    one && other
}
