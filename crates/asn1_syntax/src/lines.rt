//! Lists of words with one word on each line, and lines of comments.

use std::alloc::AllocError;

/// Whether one of the lines of `text` is exactly `word`.
pub fn is_line_of(text: &str, word: &str) -> bool {
    for line in text.lines() {
        if line == word {
            return true;
        }
    }
    false
}

/// Appends `word` and a line end to `text`.
pub fn push_line(text: &mut String, word: &str) -> Result<(), AllocError> {
    text.push_str(word)?;
    text.push('\n')
}

/// Returns `line` without the white space and the comment marks (`--`, `/*`, `*/`) at its ends.
/// `line` is one line of an ASN.1 comment.
pub fn comment_text(line: &str) -> &str {
    let line = line.trim();
    let line = line.strip_prefix("--").unwrap_or(line);
    let line = line.strip_prefix("/*").unwrap_or(line);
    let line = line.strip_suffix("--").unwrap_or(line);
    let line = line.strip_suffix("*/").unwrap_or(line);
    line.trim()
}
