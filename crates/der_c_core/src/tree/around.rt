//! The elements around a reader while it reads a tree.
ghost use Rattle.std.specs.Prelude.{◌≤◌};

// how many levels of nested parts are entered
pub(crate) const LEVELS: usize = 32;

/// The constructed elements whose contents the reader has entered, the outermost first. For the
/// element at index `i`:
///
/// - `ends[i]` is the position at which the reader ended before it entered the element;
/// - `following[i]` is the position after the element, at which the reader will continue.
///
/// Positions are in octets from the start of the input.
#[derive(Drop)]
pub(crate) struct Around {
    pub(crate) ends: [u32; 32],
    pub(crate) following: [u32; 32],
    // the number of parts around the reader
    pub(crate) level: usize,
    ghost shallow: { level ≤ 32 },
}

impl Around {
    // no parts
    pub(crate) const NONE: Around = Around {
        ends: [0; 32],
        following: [0; 32],
        level: 0,
    };
}
