//! The place of a search.
ghost use Rattle.std.specs.Prelude.{◌≤◌};

// Where a search is. What it has passed is said by `IsLeft`.
#[derive(Clone, Copy, Debug, Drop)]
pub(crate) struct Place {
    // The length of the chains that are searched now.
    pub level: usize,
    // The length of the chain at the front of the room.
    pub length: usize,
    // The candidate to be tried next after this chain.
    pub next: usize,
    ghost within: { length ≤ level },
}
