//! What a call of a search returns.

/// What a call of [`Search::next`](crate::Search::next) returns.
#[derive(Clone, Copy, Debug, Drop, PartialEq, Eq)]
pub enum Step {
    /// The next path. It is at the front of the room, and has so many candidates.
    Path(usize),
    /// All paths were found.
    Ended,
    /// All steps were used. There may be more paths.
    StepsUsed,
    /// The room is smaller than the longest chain. Nothing was searched.
    NoRoom,
}
