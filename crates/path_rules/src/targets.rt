//! What policies are mapped to.
ghost use Rattle.std.specs.Prelude.{◌≡◌, ◌↔◌, ◌≤◌, ◌<◌, ◌+◌, true, length, IsTrue, IfSome, IfNone};
ghost use Rattle.path_rules.specs.Growth.{Fills, IsTarget};
ghost use Rattle.path_rules.specs.Nodes.{HasAllowed, HasNode};
ghost use Rattle.path_rules.specs.Policies.{Allows};
ghost use Rattle.path_rules.specs.PolicyGraph.{Everyone, IsSource};

use crate::mapping::Mapping;
use crate::node::{Node, has_allowed, has_node, push};
use crate::policies::allows;

// Adds a node for what each policy is mapped to, if a node has the policy or anyPolicy is a node, and
// returns how many nodes there are then. `None` if there is no room.
pub(crate) fn add_targets<'a>(
    mappings: &[Mapping<'a>],
    allowed: &[&[u8]],
    has_any: bool,
    nodes: &[Node<'a>],
    room: &mut [Node<'a>],
    start: usize,
) -> Option<usize>
    requires { start ≤ length room.old }
    ensures some { IfSome result (λ n. Fills room.old room.new start n (length mappings.now)
        (IsTarget (IsTrue has_any) mappings.now Everyone (HasNode nodes.now) (HasNode nodes.now))
        (IsTarget (IsTrue has_any) mappings.now (Allows allowed.now) (HasAllowed nodes.now)
        (HasNode nodes.now))) }
    ensures none { IfNone result (length room.old < start + length mappings.now) }
{
    let mut count = start;
    for mapping in mappings.iter() {
        count = add_one_target(*mapping, allowed, has_any, nodes, room, count)?;
    }
    Some(count)
}

fn add_one_target<'a>(
    mapping: Mapping<'a>,
    allowed: &[&[u8]],
    has_any: bool,
    nodes: &[Node<'a>],
    room: &mut [Node<'a>],
    count: usize,
) -> Option<usize>
    requires { count ≤ length room.old }
    ensures some { IfSome result (λ n. Fills room.old room.new count n 1
        (λ p. (mapping.entry.subject.now ≡ p) × IsSource (IsTrue has_any) Everyone
        (HasNode nodes.now) (HasNode nodes.now) mapping.entry.issuer.now)
        (λ p. (mapping.entry.subject.now ≡ p) × IsSource (IsTrue has_any) (Allows allowed.now)
        (HasAllowed nodes.now) (HasNode nodes.now) mapping.entry.issuer.now)) }
    ensures none { IfNone result (length room.old ≤ count) }
{
    match source(nodes, allowed, has_any, mapping.issuer) {
        Some(is_allowed) => {
            let policy = mapping.subject;
            push(room, count, Node { policy, is_allowed })
        }
        None => Some(count),
    }
}

// Whether a policy is allowed, if a node has it or anyPolicy is a node.
fn source(nodes: &[Node<'_>], allowed: &[&[u8]], has_any: bool, policy: &[u8]) -> Option<bool>
    ensures some { IfSome result (λ b.
        IsSource (IsTrue has_any) Everyone (HasNode nodes.now) (HasNode nodes.now) policy.now
        × (IsTrue b ↔ IsSource (IsTrue has_any) (Allows allowed.now) (HasAllowed nodes.now)
        (HasNode nodes.now) policy.now)) }
    ensures none { IfNone result
        (IsSource (IsTrue has_any) Everyone (HasNode nodes.now) (HasNode nodes.now) policy.now
        → ⊥) }
{
    if has_node(nodes, policy) {
        return Some(has_allowed(nodes, policy));
    }
    if has_any {
        return Some(allows(allowed, policy));
    }
    None
}
