//! The nodes of a depth, and the policies that they expect.
ghost use Rattle.std.specs.Prelude.{◌≡◌, ◌≤◌, ◌<◌, ◌+◌, true, length, take, IfSome, IfNone};
ghost use Rattle.path_rules.specs.Growth.{Fills, IsFresh, IsKept, IsTarget};
ghost use Rattle.path_rules.specs.Nodes.{HasAllowed, HasNode};
ghost use Rattle.path_rules.specs.Policies.{Allows};
ghost use Rattle.path_rules.specs.PolicyGraph.{Everyone};

use crate::filter::{Filter, is_kept};
use crate::mapping::Mapping;
use crate::node::{Node, has_allowed, has_node, push};
use crate::policies::{allows, is_any_policy};

// Copies the nodes that are kept to the front of a room, and returns how many they are. `None` if
// there is no room.
pub(crate) fn copy_kept<'a>(
    filter: &Filter<'_>,
    nodes: &[Node<'a>],
    room: &mut [Node<'a>],
) -> Option<usize>
    ensures some { IfSome result (λ n. Fills room.old room.new 0 n (length nodes.now)
        (λ p. IsKept filter.now p × HasNode nodes.now p)
        (λ p. IsKept filter.now p × HasAllowed nodes.now p)) }
    ensures none { IfNone result (length room.old < length nodes.now) }
{
    let mut count = 0;
    for node in nodes.iter() {
        count = copy_one(filter, *node, room, count)?;
    }
    Some(count)
}

// Copies a node behind those that are there, if it is kept.
fn copy_one<'a>(
    filter: &Filter<'_>,
    node: Node<'a>,
    room: &mut [Node<'a>],
    count: usize,
) -> Option<usize>
    requires { count ≤ length room.old }
    ensures some { IfSome result (λ n. Fills room.old room.new count n 1
        (λ p. IsKept filter.now p × (node.entry.policy.now ≡ p))
        (λ p. IsKept filter.now p
        × ((node.entry.policy.now ≡ p) × (node.entry.is_allowed ≡ true)))) }
    ensures none { IfNone result (length room.old ≤ count) }
{
    if is_kept(filter, node.policy) {
        return push(room, count, node);
    }
    Some(count)
}
