//! Assignments that are not compiled.

use crate::item::Item;
use crate::refusal::Refusal;

/// An assignment that is not compiled, and why.
#[derive(Clone, Copy)]
pub struct LeftOut<'a> {
    /// The name of the type, value, class, object or set that is assigned.
    pub name: Item<'a>,
    /// Why the assignment is not compiled: it is not valid, it has a form that is not supported, or
    /// it refers to a name that is not compiled.
    pub refusal: Refusal<'a>,
}
