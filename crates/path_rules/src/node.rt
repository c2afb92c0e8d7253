//! The nodes of one depth of the policy graph.
ghost use Rattle.std.specs.Prelude.{◌≡◌, ◌↔◌, ◌<◌, ◌≤◌, ◌+◌, ◌∷◌, ◌++◌, [], length, take, IsTrue, IfSome, IfNone};
ghost use Rattle.path_rules.specs.Nodes.{HasAllowed, HasNode};

/// A node of the policy graph: a policy of one depth (RFC 9618, 3). They are in a room of the caller.
#[derive(Clone, Copy, Debug, Drop)]
pub struct Node<'a> {
    /// The policy.
    pub policy: &'a [u8],
    /// Whether it grows from a policy that the user allows.
    pub is_allowed: bool,
}

impl Node<'_> {
    /// A node to fill a room with.
    pub const EMPTY: Node<'static> = Node {
        policy: &[],
        is_allowed: false,
    };
}

// Whether one of the nodes has this policy.
pub(crate) fn has_node(nodes: &[Node<'_>], policy: &[u8]) -> bool
    ensures { IsTrue result ↔ HasNode nodes.now policy.now }
{
    nodes.iter().any(|node| node.policy == policy)
}

// Whether one of the nodes that are allowed has this policy.
pub(crate) fn has_allowed(nodes: &[Node<'_>], policy: &[u8]) -> bool
    ensures { IsTrue result ↔ HasAllowed nodes.now policy.now }
{
    nodes
        .iter()
        .any(|node| node.policy == policy && node.is_allowed)
}

// Adds a node, and returns how many there are then. `None` if there is no room.
pub(crate) fn push<'a>(room: &mut [Node<'a>], count: usize, node: Node<'a>) -> Option<usize>
    requires { count ≤ length room.old }
    ensures some { IfSome result (λ n. (n ≡ count + 1) × (count < length room.old)
        × (take n room.new ≡ take count room.old ++ node.entry ∷ [])) }
    ensures none { IfNone result (length room.old ≤ count) }
{
    if count == room.len() {
        return None;
    }
    room[count] = node;
    Some(count + 1)
}
