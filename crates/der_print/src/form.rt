//! The output formats of values.

/// The format in which a value is printed.
#[derive(Clone, Copy, PartialEq, Eq)]
pub enum Form {
    /// The value is printed as JSON.
    Json,
    /// Each field of the value is printed on a line.
    Lines,
}
