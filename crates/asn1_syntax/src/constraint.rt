//! Constraints.

use crate::item::Item;
use crate::range::Range;

/// A restriction of the values of a type.
#[derive(Clone, Copy)]
pub enum Constraint<'a> {
    /// The type has only the numbers in this range. A single value is a range with equal ends.
    Range(Range<'a>),
    /// The type has only values whose number of characters, octets, bits or elements is in this
    /// range.
    Size(Range<'a>),
    /// `CONTAINING`: the contents of the string are an encoding of another type. The number is the
    /// index of that type among the `nodes` of the module.
    Containing(usize),
    /// A table constraint (X.682, 10). It allows the values that the objects of an object set have
    /// in one field of their class. The number is the index of the constraint among the `tables` of
    /// the module.
    Table(usize),
    /// A constraint of another form, which the parser skips. The `Item` is the first lexical item
    /// of the constraint.
    Unread(Item<'a>),
}
