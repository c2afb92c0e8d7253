//! Writes the `use` lines of a file. The text of the file decides which names are imported.

use asn1_syntax::{NameIndex, is_word_octet, push_line};
use std::alloc::{AllocError, Global};
use std::fmt::Write;

const WIDTH: usize = 100;

/// Appends a `use` line for some of `names`: those that are among `words`, the words of a text.
/// `names` has one name on each line. Appends nothing if no name is among `words`.
pub fn push_use(
    alloc: Global,
    out: &mut String,
    words: &NameIndex<'_>,
    path: &str,
    names: &str,
) -> Result<(), AllocError> {
    let found = words_in(alloc, words, names)?;
    push_names(alloc, out, path, found.as_str())
}

// Those of the names, each on its line, that are among the words.
fn words_in(alloc: Global, words: &NameIndex<'_>, names: &str) -> Result<String, AllocError> {
    let mut found = String::new(alloc);
    for name in names.lines() {
        if words.has(name) {
            push_line(&mut found, name)?;
        }
    }
    Ok(found)
}

/// Appends a `use` line for all of `names`, which has one name on each line. Appends nothing if
/// `names` is empty.
pub fn push_names(
    alloc: Global,
    out: &mut String,
    path: &str,
    names: &str,
) -> Result<(), AllocError> {
    let line = joined(alloc, names)?;
    let line = line.as_str();
    match names.lines().count() {
        0 => Ok(()),
        1 => write!(out, "use {path}::{line};\n"),
        _ if path.len().saturating_add(line.len()).saturating_add(9) <= WIDTH => {
            write!(out, "use {path}::{{{line}}};\n")
        }
        _ => {
            write!(out, "use {path}::{{")?;
            push_lines(alloc, out, names)?;
            out.push_str("\n};\n")
        }
    }
}

// The lines with commas between them.
fn joined(alloc: Global, names: &str) -> Result<String, AllocError> {
    let mut line = String::new(alloc);
    for (count, name) in names.lines().enumerate() {
        if count > 0 {
            line.push_str(", ")?;
        }
        line.push_str(name)?;
    }
    Ok(line)
}

// Adds the names in lines of at most 100 columns.
fn push_lines(alloc: Global, out: &mut String, names: &str) -> Result<(), AllocError> {
    let mut line = String::new(alloc);
    for name in names.lines() {
        if line.len().saturating_add(name.len()).saturating_add(6) > WIDTH {
            out.push_str(line.as_str())?;
            line = String::new(alloc);
        }
        let space = if line.is_empty() { "\n    " } else { " " };
        write!(line, "{space}{name},")?;
    }
    out.push_str(line.as_str())
}

/// The words of a Rust text that may need an import. A word after `::` is left out, since it needs
/// none.
pub fn words_of<'t>(alloc: Global, text: &'t str) -> Result<NameIndex<'t>, AllocError> {
    let octets = text.as_bytes();
    let mut words = NameIndex::new(alloc);
    let mut start = 0usize;
    for at in 0..octets.len() {
        if !is_word_octet(octets[at]) {
            add_word(&mut words, text, start, at)?;
            start = at + 1;
        }
    }
    add_word(&mut words, text, start, octets.len())?;
    Ok(words)
}

// Adds the word between these indices.
fn add_word<'t>(
    words: &mut NameIndex<'t>,
    text: &'t str,
    start: usize,
    end: usize,
) -> Result<(), AllocError> {
    let word = text.get(start..end).unwrap_or("");
    let is_after_path = text.as_bytes().get(start.saturating_sub(1)) == Some(&b':');
    if !word.is_empty() && !is_after_path {
        words.add(word, start)?;
    }
    Ok(())
}

/// Appends a `ghost use` line, which imports names for contracts. It has those of `names` that are
/// among `words`, the words of a text. `names` has one name on each line. Appends nothing if no
/// name is among `words`.
pub fn push_ghost_use(
    alloc: Global,
    out: &mut String,
    words: &NameIndex<'_>,
    path: &str,
    names: &str,
) -> Result<(), AllocError> {
    let found = words_in(alloc, words, names)?;
    if found.is_empty() {
        return Ok(());
    }
    let line = joined(alloc, found.as_str())?;
    let line = line.as_str();
    write!(out, "ghost use {path}.{{{line}}};\n")
}
