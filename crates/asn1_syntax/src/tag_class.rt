//! Classes of tags.

/// A class of tags (X.680, 8.1).
#[derive(Clone, Copy, PartialEq, Eq)]
pub enum TagClass {
    Universal,
    Application,
    ContextSpecific,
    Private,
}
