//! Departures: places where octets break a rule.

use crate::rule::Rule;

/// A departure: a place where octets break a rule.
#[derive(Debug, Clone, Copy, PartialEq, Eq)]
pub struct Departure {
    /// The rule that the octets break.
    pub rule: Rule,
    /// Where the rule is broken, in octets from the start of the input. It is the offset of the
    /// element that breaks the rule, or the offset at which an element is expected.
    pub offset: usize,
    /// The index, among the entries of the tree, of the element to which the departure belongs.
    /// This is the element that breaks the rule, or the element around the place where the rule is
    /// broken.
    pub node: usize,
}

impl Departure {
    /// A value that stands for no departure. It fills the memory of the caller before departures
    /// are stored there.
    pub const NONE: Departure = Departure {
        rule: Rule::Header,
        offset: 0,
        node: 0,
    };
}
