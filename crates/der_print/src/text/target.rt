//! The trait of targets. An output passes its text to a target.

/// A receiver of the text of an output, such as a stream or memory of the caller.
pub trait Target: Drop {
    /// Appends octets to the text. Returns whether all of them were appended.
    fn push(&mut self, octets: &[u8]) -> bool;

    /// The last octet of the text, if the target still holds it.
    fn last(&self) -> Option<u8>;
}
