//! Lengths.

/// The length of an element (X.690 8.1.3).
#[derive(Debug, Clone, Copy, PartialEq, Eq)]
pub enum Length {
    /// The number of contents octets (8.1.3.3), up to 4294967295.
    Definite(u32),
    /// The length is indefinite: end-of-contents octets close the contents (8.1.3.6).
    Indefinite,
}
