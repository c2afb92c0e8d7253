//! The place of a value, which messages show: its file and its PEM block.

/// The file that contains a value, and the PEM block in this file.
#[derive(Clone, Copy)]
pub struct Place<'a> {
    /// The path of the file, as the user gave it. For standard input, the words `standard input`.
    pub file: &'a str,
    /// The label of the PEM block. `None` if the file is not PEM.
    pub label: Option<&'a str>,
    /// The number of the line with which the PEM block begins, counted from 1. 0 if the file is not
    /// PEM.
    pub line: usize,
}
