//! Objects of classes (X.681).

use crate::item::Item;
use crate::value::Value;

/// An information object (X.681): the settings of the fields of its class.
#[derive(Drop)]
pub struct InformationObject<'a> {
    /// The name of the object. An object that is written directly in a set has no name. Then this
    /// is the whole text of the object, with its braces.
    pub name: Item<'a>,
    /// The index, among the `nodes` of the module, of the first type that is written in the object.
    pub first: usize,
    /// The index after the last type that is written in the object, among the `nodes` of the
    /// module. It equals `first` if no type is written in the object.
    pub end: usize,
    /// What the object sets the fields of its class to.
    pub fields: Vec<ObjectField<'a>>,
}

/// What an information object sets one field of its class to.
#[derive(Drop)]
pub struct ObjectField<'a> {
    /// The name of the field, without `&`.
    pub name: Item<'a>,
    /// What the object sets the field to.
    pub setting: Setting<'a>,
}

/// What an object sets a field of its class to.
#[derive(Drop)]
pub enum Setting<'a> {
    /// The type with this index among the `nodes` of the module.
    Type(usize),
    /// This value. For a field that takes an object, it is the name or the text of that object.
    Value(Value<'a>),
    /// A set of values or of objects. The parser skips it.
    Set,
}
