//! Tags of the notation.

use crate::tag_class::TagClass;
use crate::tagging::Tagging;

/// A tag, as `[1]` or `[APPLICATION 7]`.
#[derive(Clone, Copy, PartialEq, Eq)]
pub struct Tag {
    /// The class.
    pub class: TagClass,
    /// The number of the tag.
    pub number: u64,
}

/// A tag that is written in front of a type, and whether it is explicit or implicit.
#[derive(Clone, Copy)]
pub struct TagPrefix {
    /// The tag.
    pub tag: Tag,
    /// Whether the tag is explicit or implicit. If neither word is written:
    ///
    /// - `Some(Tagging::Explicit)`, if the module has explicit tags;
    /// - `None`, if the module has implicit or automatic tags. Then the tag is explicit in front of
    ///   a type that has no tag of its own, and otherwise implicit.
    pub tagging: Option<Tagging>,
}
