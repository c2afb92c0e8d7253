//! The styles in which text is escaped.

/// The place at which text is printed. The place decides which characters are escaped. A hidden
/// character is one for which [`is_hidden`](hidden_characters::is_hidden) is true.
#[derive(Clone, Copy, PartialEq, Eq)]
pub enum Style {
    /// The text is on a line. Backslashes and hidden characters are escaped.
    Line,
    /// The text is in a list with commas. Backslashes, commas and hidden characters are escaped.
    List,
    /// The text is in a distinguished name. Hidden characters are escaped, and all characters that
    /// RFC 4514, 2.4, demands to escape.
    Name,
    /// The text is in a string of JSON. Hidden characters are escaped, and all characters that RFC
    /// 8259, 7, demands to escape.
    Json,
}
