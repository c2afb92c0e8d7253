//! What the contents of a value consist of.
ghost use Rattle.std.specs.Prelude.{◌≡◌, true, false, IsTrue};
ghost use Rattle.schema_read.specs.Value.{shape_of, is_constructed};

use ber::Universal;
use schema_types::NodeKind;

/// What the contents of a value consist of. It depends on the kind of the type.
#[derive(Clone, Copy)]
pub enum Shape {
    /// The contents are the components of a SEQUENCE.
    Components,
    /// The contents are the components of a SET, in any order.
    Members,
    /// The contents are the contents octets of a value of this universal type, which is neither
    /// SEQUENCE nor SET.
    Of(Universal),
    /// The contents are the items of a SEQUENCE OF.
    Items,
    /// The contents are the items of a SET OF, which DER sorts.
    SortedItems,
    /// The contents are the value inside an EXPLICIT tag.
    Inner,
    /// The type is ANY or an open type, so it does not say what the contents are.
    Untyped,
    /// The type is a CHOICE, which has no contents of its own.
    Nothing,
}

impl Shape {
    /// What the contents of a value consist of, if its type is of this kind.
    pub fn of(kind: NodeKind) -> Self
        ensures { result ≡ shape_of kind }
    {
        match kind {
            NodeKind::Universal(Universal::Sequence) => Shape::Components,
            NodeKind::Universal(Universal::Set) => Shape::Members,
            NodeKind::Universal(universal) => Shape::Of(universal),
            NodeKind::SequenceOf => Shape::Items,
            NodeKind::SetOf => Shape::SortedItems,
            NodeKind::Explicit => Shape::Inner,
            NodeKind::Choice => Shape::Nothing,
            NodeKind::Any => Shape::Untyped,
            NodeKind::Open => Shape::Untyped,
        }
    }

    /// Whether an encoding is primitive though its contents need a constructed encoding.
    /// `constructed` says whether the encoding is constructed.
    pub fn has_wrong_form(self, constructed: bool) -> bool
        ensures right { (result ≡ false) → is_constructed self ≡ true → constructed ≡ true }
        ensures wrong { IsTrue result → (is_constructed self ≡ true) × (constructed ≡ false) }
    {
        match self {
            Shape::Components | Shape::Members | Shape::Items | Shape::SortedItems | Shape::Inner =>
                !constructed,
            _ => false,
        }
    }
}
