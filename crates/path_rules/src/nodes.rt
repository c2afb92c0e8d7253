//! The nodes of a certificate's depth, and the policies that they expect.
ghost use Rattle.std.specs.Prelude.{◌≡◌, ◌↔◌, ◌⊎◌, ◌≤◌, ◌<◌, ◌+◌, true, length, IsTrue, IfSome, IfNone};
ghost use Rattle.path_rules.specs.Growth.{Fills, IsKept};
ghost use Rattle.path_rules.specs.Nodes.{HasAllowed, HasNode};
ghost use Rattle.path_rules.specs.Policies.{Allows, Asserts};
ghost use Rattle.path_rules.specs.PolicyGraph.{Everyone, ExpectedBy, NodeBy};

use crate::depth::copy_kept;
use crate::filter::{Filter, node_filter};
use crate::fresh::add_fresh;
use crate::node::Node;
use crate::policy_facts::PolicyFacts;
use crate::targets::add_targets;

// Puts the nodes of a certificate's depth into a room (RFC 5280, 6.1.3 (d)), and returns how many
// they are. `any_counts` says whether anyPolicy of the certificate counts, and `any_before` whether
// anyPolicy is a node of the depth before. `None` if there is no room.
pub(crate) fn put_nodes<'a>(
    facts: &PolicyFacts<'a>,
    allowed: &[&[u8]],
    any_counts: bool,
    any_before: bool,
    expected: &[Node<'a>],
    room: &mut [Node<'a>],
) -> Option<usize>
    ensures some { IfSome result (λ n. Fills room.old room.new 0 n
        (length expected.now + length facts.now.policies.now)
        (NodeBy facts.now (IsTrue any_counts) (IsTrue any_before) Everyone (HasNode expected.now)
        (HasNode expected.now))
        (NodeBy facts.now (IsTrue any_counts) (IsTrue any_before) (Allows allowed.now)
        (HasAllowed expected.now) (HasNode expected.now))) }
    ensures none { IfNone result
        (length room.old < length expected.now + length facts.now.policies.now) }
{
    let filter = node_filter(any_counts, facts.policies);
    let count = copy_kept(&filter, expected, room)?;
    if any_before {
        return add_fresh(facts.policies, allowed, expected, room, count);
    }
    Some(count)
}

// Puts the policies that the nodes of a depth expect into a room (RFC 5280, 6.1.4 (b)), and returns
// how many they are. `may_map` says whether policies may be mapped, and `has_any` whether anyPolicy is
// a node of the depth. `None` if there is no room.
pub(crate) fn put_expected<'a>(
    facts: &PolicyFacts<'a>,
    allowed: &[&[u8]],
    may_map: bool,
    has_any: bool,
    nodes: &[Node<'a>],
    room: &mut [Node<'a>],
) -> Option<usize>
    ensures some { IfSome result (λ n. Fills room.old room.new 0 n
        (length nodes.now + length facts.now.mappings.now)
        (ExpectedBy facts.now (IsTrue may_map) (IsTrue has_any) Everyone (HasNode nodes.now)
        (HasNode nodes.now))
        (ExpectedBy facts.now (IsTrue may_map) (IsTrue has_any) (Allows allowed.now)
        (HasAllowed nodes.now) (HasNode nodes.now))) }
    ensures none { IfNone result
        (length room.old < length nodes.now + length facts.now.mappings.now) }
{
    let count = copy_kept(&Filter::Unmapped(facts.mappings), nodes, room)?;
    if may_map {
        return add_targets(facts.mappings, allowed, has_any, nodes, room, count);
    }
    Some(count)
}
