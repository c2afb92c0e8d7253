//! Numbers of the notation.

use crate::item::Item;

/// A number, or one end of a range.
#[derive(Clone, Copy)]
pub enum Endpoint<'a> {
    /// `MIN`: the least value of the type.
    Min,
    /// `MAX`: the greatest value of the type.
    Max,
    /// A number that is 0 or more.
    Number(u64),
    /// A number below 0. The `u64` is its absolute value.
    Negative(u64),
    /// The number that the module assigns to this name. The name is not looked up yet.
    Name(Item<'a>),
}

impl<'a> Endpoint<'a> {
    /// Whether this number is less than or equal to `other`. `MIN` is less than all others, and
    /// `MAX` is greater than all others. The value of a name is not known here. A comparison of a
    /// name with a number, or with another name, returns true.
    pub fn is_at_most(self, other: Endpoint<'a>) -> bool {
        match (self, other) {
            (Endpoint::Min, _) | (_, Endpoint::Max) => true,
            (Endpoint::Max, _) | (_, Endpoint::Min) => false,
            (Endpoint::Name(_), _) | (_, Endpoint::Name(_)) => true,
            (Endpoint::Number(low), Endpoint::Number(high)) => low <= high,
            (Endpoint::Negative(low), Endpoint::Negative(high)) => high <= low,
            (Endpoint::Negative(_), Endpoint::Number(_)) => true,
            (Endpoint::Number(low), Endpoint::Negative(high)) => low == 0 && high == 0,
        }
    }

    /// Whether this number and `other` are equal. The value of a name is not known here, so a name
    /// counts as equal to every number and to every name.
    pub fn is_same(self, other: Endpoint<'a>) -> bool {
        self.is_at_most(other) && other.is_at_most(self)
    }
}
