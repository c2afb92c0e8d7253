//! Measuring the length of a text without storing it.

use std::fmt;

/// A writer that counts the octets of the text that is written to it. The text is not stored.
#[derive(Drop)]
pub(crate) struct TextLength {
    /// The number of octets written so far. It is `usize::MAX` if there are more.
    pub(crate) count: usize,
}

impl fmt::Write for TextLength {
    fn write_str(&mut self, text: &str) -> fmt::Result {
        self.count = self.count.saturating_add(text.len());
        Ok(())
    }
}
