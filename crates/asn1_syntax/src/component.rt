//! Components of a SEQUENCE or SET and alternatives of a CHOICE.

use crate::item::Item;
use crate::value::Value;

/// A component of a SEQUENCE or a SET, or an alternative of a CHOICE.
#[derive(Drop)]
pub struct Component<'a> {
    /// The name of the component. Its field `comments` holds the comments in front of the name.
    pub name: Item<'a>,
    /// The index of the component's type among the `nodes` of the module.
    pub of: usize,
    /// Whether the component may be absent.
    pub presence: Presence<'a>,
    /// Whether the component is an extension addition. Extension additions are written after the
    /// first extension marker (`...`), and before the second one if there are two.
    pub is_addition: bool,
    /// The number of the tag that the component gets from AUTOMATIC TAGS (X.680, 25.2); `None` if
    /// the component gets no tag from AUTOMATIC TAGS.
    pub number: Option<usize>,
}

/// Whether a component may be absent.
#[derive(Drop)]
pub enum Presence<'a> {
    /// The component must be present.
    Required,
    /// The component is written with OPTIONAL, or it is an extension addition without DEFAULT.
    Optional,
    /// The component has this DEFAULT value. DER leaves the component out of an encoding if its
    /// value is the DEFAULT value.
    Default(Value<'a>),
}
