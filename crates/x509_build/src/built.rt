//! What the search for a path gives.

/// What a call of [`next_path`](crate::next_path) returns.
#[derive(Clone, Copy, Debug, Drop, PartialEq, Eq)]
pub enum Built {
    /// The next path that keeps all rules. It has so many certificates, and its chain as many
    /// candidates.
    Path(usize),
    /// No other path keeps all rules.
    Ended,
    /// All steps were used. There may be more paths.
    StepsUsed,
    /// A room is too small. Nothing was searched.
    NoRoom,
}
