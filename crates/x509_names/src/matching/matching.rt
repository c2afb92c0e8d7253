//! The senses in which two values match.

/// The sense in which two values match.
#[derive(Clone, Copy, Debug, PartialEq, Eq)]
pub(crate) enum Matching {
    /// Two texts are the same after preparation, and other values are the same elements.
    Prepared,
    /// The values match, and the comparison is exact for them.
    Certain,
    /// The values match, or the comparison is not exact for them.
    Possible,
}
