//! Policies that no node expects.
ghost use Rattle.std.specs.Prelude.{◌≡◌, ◌≢◌, ◌≤◌, ◌<◌, ◌+◌, length, IfSome, IfNone};
ghost use Rattle.path_rules.specs.Growth.{Fills, IsFresh};
ghost use Rattle.path_rules.specs.Nodes.{HasNode};
ghost use Rattle.path_rules.specs.Policies.{Allows};

use crate::node::{Node, has_node, push};
use crate::policies::{ANY_POLICY, allows, is_any_policy};

// Adds a node for each policy that is not anyPolicy and that no node expects, and returns how many
// nodes there are then. `None` if there is no room.
pub(crate) fn add_fresh<'a>(
    policies: &[&'a [u8]],
    allowed: &[&[u8]],
    expected: &[Node<'a>],
    room: &mut [Node<'a>],
    start: usize,
) -> Option<usize>
    requires { start ≤ length room.old }
    ensures some { IfSome result (λ n. Fills room.old room.new start n (length policies.now)
        (IsFresh expected.now policies.now)
        (λ p. IsFresh expected.now policies.now p × Allows allowed.now p)) }
    ensures none { IfNone result (length room.old < start + length policies.now) }
{
    let mut count = start;
    for policy in policies.iter() {
        count = add_one_fresh(policy, allowed, expected, room, count)?;
    }
    Some(count)
}

fn add_one_fresh<'a>(
    policy: &'a [u8],
    allowed: &[&[u8]],
    expected: &[Node<'a>],
    room: &mut [Node<'a>],
    count: usize,
) -> Option<usize>
    requires { count ≤ length room.old }
    ensures some { IfSome result (λ n. Fills room.old room.new count n 1
        (λ p. ((p ≢ ANY_POLICY) × (HasNode expected.now p → ⊥)) × (policy.now ≡ p))
        (λ p. (((p ≢ ANY_POLICY) × (HasNode expected.now p → ⊥)) × Allows allowed.now p)
        × (policy.now ≡ p))) }
    ensures none { IfNone result (length room.old ≤ count) }
{
    if is_any_policy(policy) || has_node(expected, policy) {
        return Some(count);
    }
    let is_allowed = allows(allowed, policy);
    push(room, count, Node { policy, is_allowed })
}
