//! What is known of the policy graph between two certificates, and at a certificate.

use crate::counters::Counters;

/// What is known of the policy graph after some certificates of a path. The policies that are
/// expected are in a room.
#[derive(Clone, Copy, Debug, Drop)]
pub(crate) struct State {
    pub(crate) counters: Counters,
    // Whether anyPolicy is a node.
    pub(crate) has_any: bool,
    // How many nodes are in the room.
    pub(crate) count: usize,
}

/// What is known of the policy graph at the depth of a certificate. The nodes are in a room.
#[derive(Clone, Copy, Debug, Drop)]
pub(crate) struct Depth {
    // Whether anyPolicy is a node.
    pub(crate) has_any: bool,
    // How many other nodes are in the room.
    pub(crate) count: usize,
}
