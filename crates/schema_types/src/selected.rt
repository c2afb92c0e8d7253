//! The node that a tag selects.

/// The type that a tag selects: the node, and the alternative if the node comes from a CHOICE.
#[derive(Debug, Clone, Copy, PartialEq, Eq)]
pub struct Selected {
    /// The index of the node of the type. This node is never a CHOICE.
    pub node: u32,
    /// The index of the field of the selected alternative, if the type was selected from a CHOICE.
    /// For nested CHOICEs, it is an alternative of the innermost one. `None` if the type was not
    /// selected from a CHOICE.
    pub field: Option<u32>,
}
