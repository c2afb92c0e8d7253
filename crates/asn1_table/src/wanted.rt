//! Types that need a node in a table.

use crate::limits::Limits;
use crate::opener::Opener;
use asn1_check::contained;
use asn1_syntax::{Tag, TagClass, TypeNode};

/// The description of a type that needs a node in the table. It is the type to which references
/// (names of types) and implicit tags lead, with the name, the tag and the limits that they give
/// the type.
#[derive(Clone, Copy)]
pub struct Wanted<'a> {
    /// The index of the type among the `nodes` of the module; `usize::MAX` for `ANY`.
    pub index: usize,
    /// The name of the type. If several references were followed, it is the last name. Empty if the
    /// type has no name.
    pub name: &'a str,
    /// A tag that is written in front of the type, or that its component gets from AUTOMATIC TAGS.
    /// `None` if the type has only the tag of its own.
    pub tag: Option<Tag>,
    /// Whether `tag` is put around the type, as an EXPLICIT tag is. Otherwise `tag` replaces the
    /// type's own tag.
    pub is_around: bool,
    /// The limits that constraints set, both after the type and after the references to it that
    /// were followed.
    pub limits: Limits<'a>,
    /// The index of the type that a string contains, if the type is a string with a constraint
    /// CONTAINING.
    pub contained: Option<usize>,
    /// How the types of the open types in this type are chosen.
    pub opener: Opener<'a>,
}

impl<'a> Wanted<'a> {
    /// The description of `ANY`, or of the open type for which `opener` has a chooser.
    pub fn any(opener: Opener<'a>) -> Self {
        Wanted {
            index: usize::MAX,
            name: "",
            tag: None,
            is_around: false,
            limits: Limits::NONE,
            contained: None,
            opener,
        }
    }

    /// A copy of this description for another type. It has this index, name and opener.
    pub fn named(self, index: usize, name: &'a str, opener: Opener<'a>) -> Self {
        Wanted {
            index,
            name,
            opener,
            ..self
        }
    }

    /// A copy of this description for the type with this index, which is behind the implicit tag
    /// `tag`. The copy gets this tag, unless it already has a tag that is written before it.
    pub fn under(self, tag: Tag, index: usize) -> Self {
        Wanted {
            index,
            tag: self.tag.or(Some(tag)),
            ..self
        }
    }

    /// A copy of this description with the constraints of `node`. That is the type itself, or a
    /// reference that was followed to it.
    pub fn after(self, node: &TypeNode<'a>) -> Self {
        Wanted {
            limits: self.limits.after(node),
            contained: self.contained.or(contained(node)),
            ..self
        }
    }

    /// The tag that the node has: its class as a number from 0 to 3, and its number. `own` is the
    /// number of the type's own universal tag. The node has that tag if no tag replaces it.
    pub fn tag_or(&self, own: u32) -> (u32, u32) {
        match self.tag {
            Some(tag) => numbers_of(tag),
            None => (0, own),
        }
    }
}

/// The class of a tag, as a number from 0 to 3, and the number of the tag. A number that does not
/// fit in a `u32` becomes the greatest `u32`.
pub fn numbers_of(tag: Tag) -> (u32, u32) {
    let class = match tag.class {
        TagClass::Universal => 0,
        TagClass::Application => 1,
        TagClass::ContextSpecific => 2,
        TagClass::Private => 3,
    };
    (class, u32::try_from(tag.number).unwrap_or(u32::MAX))
}
