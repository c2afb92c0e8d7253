//! Types of the notation.

use crate::component::Component;
use crate::constraint::Constraint;
use crate::item::Item;
use crate::named_number::NamedNumber;
use crate::simple_type::SimpleType;
use crate::tag::TagPrefix;

/// A type. The types of its components or items have smaller indices among the `nodes` of the
/// module.
#[derive(Drop)]
pub struct TypeNode<'a> {
    /// The first lexical item of the type.
    pub item: Item<'a>,
    /// Which kind of type this is, and what the type is made of.
    pub form: TypeForm<'a>,
    /// The constraints written after the type. For a SEQUENCE OF or a SET OF, also the size
    /// constraint that is written before `OF`.
    pub constraints: Vec<Constraint<'a>>,
    /// The extension marker of an ENUMERATED, a SEQUENCE, a SET or a CHOICE, if it has one.
    pub mark: Option<Mark<'a>>,
}

/// An extension marker (`...`).
#[derive(Clone, Copy)]
pub struct Mark<'a> {
    /// The lexical item `...`.
    pub item: Item<'a>,
    /// The number of components before the extension insertion point (X.680, 25.1), where values of
    /// later versions of the module may have more components. Always 0 in an ENUMERATED.
    pub insertion: usize,
}

/// The kind of a type, and what the type is made of. Each index of a type is an index among the
/// `nodes` of the module.
#[derive(Drop)]
pub enum TypeForm<'a> {
    /// A built-in type that is not made of other types.
    Simple(SimpleType),
    /// An INTEGER with these named numbers, of which there may be none.
    Integer(Vec<NamedNumber<'a>>),
    /// An ENUMERATED with these items.
    Enumerated(Vec<NamedNumber<'a>>),
    /// A BIT STRING with these named bits, of which there may be none.
    BitString(Vec<NamedNumber<'a>>),
    /// A reference to the type whose name is the first item of the [`TypeNode`].
    Reference,
    /// A SEQUENCE of these components.
    Sequence(Vec<Component<'a>>),
    /// A SET of these components, in the order in which they are written.
    Set(Vec<Component<'a>>),
    /// A CHOICE of these alternatives.
    Choice(Vec<Component<'a>>),
    /// A SEQUENCE OF the type with this index.
    SequenceOf(usize),
    /// A SET OF the type with this index.
    SetOf(usize),
    /// A tag in front of the type with this index.
    Tagged(TagPrefix, usize),
}
