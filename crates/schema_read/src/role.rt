//! The role of an element in the element around it.

// No index of a row.
pub(crate) const NO_INDEX: u32 = 0xffff_ffff;

/// The greatest number of levels to which elements may be nested.
pub const LEVELS: usize = 64;

/// The role of an element in the element around it: its field if it is a component, its alternative
/// if it is a value of a CHOICE, and the index of the element around it.
#[derive(Clone, Copy)]
pub(crate) struct Role {
    pub field: u32,
    pub alternative: u32,
    pub parent: usize,
}

impl Role {
    /// The role of an element that is not a component, inside the element with the index `parent`.
    pub fn inside(parent: usize) -> Self {
        Role {
            field: NO_INDEX,
            alternative: NO_INDEX,
            parent,
        }
    }

    /// A copy of this role for an element that is an alternative of a CHOICE. `alternative` is the
    /// field of the alternative. With `None`, the role stays as it is.
    pub fn through(self, alternative: Option<u32>) -> Self {
        match alternative {
            Some(alternative) => Role {
                alternative,
                ..self
            },
            None => self,
        }
    }
}
