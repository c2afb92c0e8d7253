//! Ranges of numbers.

use crate::endpoint::Endpoint;
use crate::item::Item;

/// A range of numbers: from one end to the other, both included.
#[derive(Clone, Copy)]
pub struct Range<'a> {
    /// The first lexical item of the range.
    pub item: Item<'a>,
    /// The least number.
    pub low: Endpoint<'a>,
    /// The greatest number.
    pub high: Endpoint<'a>,
    /// Whether an extension marker (`...`) is written after the range.
    pub is_extensible: bool,
}

impl<'a> Range<'a> {
    /// All numbers.
    pub const ALL: Range<'static> = Range {
        item: Item::END,
        low: Endpoint::Min,
        high: Endpoint::Max,
        is_extensible: false,
    };

    /// The numbers that are in both ranges.
    pub fn and(self, other: Range<'a>) -> Range<'a> {
        Range {
            low: if self.low.is_at_most(other.low) {
                other.low
            } else {
                self.low
            },
            high: if self.high.is_at_most(other.high) {
                self.high
            } else {
                other.high
            },
            ..self
        }
    }

    /// Whether no number is in the range.
    pub fn is_empty(&self) -> bool {
        !self.low.is_at_most(self.high)
    }

    /// Whether `number` is in the range. If an end of the range is a name, that end excludes no
    /// number, since the value of the name is not known here.
    pub fn has(&self, number: Endpoint<'a>) -> bool {
        self.low.is_at_most(number) && number.is_at_most(self.high)
    }

    /// The low and the high end, if both are written as numbers and are not negative; otherwise
    /// `None`.
    pub fn numbers(&self) -> Option<(u64, u64)> {
        match (self.low, self.high) {
            (Endpoint::Number(low), Endpoint::Number(high)) => Some((low, high)),
            _ => None,
        }
    }
}
