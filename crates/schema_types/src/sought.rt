//! The tag to look for. It may also stand for any tag.
ghost use Rattle.std.specs.Prelude.{◌≡◌};
ghost use Rattle.schema_types.specs.Tags.{is_untagged};

use crate::node::Node;
use crate::node_kind::NodeKind;
use der_base::Class;

// A tag that is sought, or any.
#[derive(Clone, Copy)]
pub(crate) struct Sought {
    // Whether any tag will do.
    pub(crate) any: bool,
    pub(crate) class: Class,
    pub(crate) number: u32,
}

impl Sought {
    ghost use Rattle.std.specs.Prelude.{◌↔◌, IsTrue};
    ghost use Rattle.schema_types.specs.Sought.{one_tag, tags_of, IsMet};

    // One tag.
    #[inline(always)]
    pub(crate) fn tag(class: Class, number: u32) -> Self
        ensures { result ≡ one_tag class number }
    {
        Sought {
            any: false,
            class,
            number,
        }
    }

    // The tags that a node, which is no CHOICE, may have.
    #[inline(always)]
    pub(crate) fn tags_of(node: Node) -> Self
        ensures { result ≡ tags_of node }
    {
        Sought {
            any: is_untagged(node.kind),
            class: node.class,
            number: node.number,
        }
    }

    // Whether a node, which is no CHOICE, may have such a tag.
    #[inline(always)]
    pub(crate) fn is_met(self, node: Node) -> bool
        ensures { IsTrue result ↔ IsMet self node }
    {
        self.any
            || is_untagged(node.kind)
            || (node.number == self.number && node.class == self.class)
    }
}

// Whether values of a type may have each tag.
#[inline(always)]
fn is_untagged(kind: NodeKind) -> bool
    ensures { result ≡ is_untagged kind }
{
    matches!(kind, NodeKind::Any | NodeKind::Open)
}
