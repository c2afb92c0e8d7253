//! Contents of elements.
ghost use Rattle.std.specs.Prelude.{◌≤◌};

use crate::place::Place;

/// The contents of an element, while they are read. If the length of the element is indefinite, it
/// is not known yet where the contents end. In that case, `inside` goes on to the end of the
/// contents of the next outer element.
#[derive(Clone, Copy)]
pub(crate) struct Opened<'a> {
    pub inside: Place<'a>,
    /// The offset of the element, in octets from the start of the input.
    pub start: usize,
    /// Whether the length of the element is indefinite. Then end-of-contents octets end the
    /// contents.
    pub marked: bool,
    /// The octets after the element, if its length is definite. Empty if its length is indefinite.
    pub beyond: &'a [u8],
    ghost from: { start ≤ inside.end },
}
