//! Explicit, implicit and automatic tags.

/// How a tag is put in front of a type (X.680, 31.2).
#[derive(Clone, Copy, PartialEq, Eq)]
pub enum Tagging {
    /// The encoding begins with this tag. Its contents are the whole encoding of the type, with the
    /// type's own tag.
    Explicit,
    /// This tag replaces the tag of the type.
    Implicit,
}

/// Which tags a module has where neither EXPLICIT nor IMPLICIT is written (X.680, 13.2).
#[derive(Clone, Copy, PartialEq, Eq)]
pub enum TagDefault {
    /// `EXPLICIT TAGS`, or no word: tags are explicit.
    Explicit,
    /// `IMPLICIT TAGS`: tags are implicit.
    Implicit,
    /// `AUTOMATIC TAGS`: tags are implicit, and components that are written without tags get tags
    /// with ascending numbers (25.2).
    Automatic,
}
