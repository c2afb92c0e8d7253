//! Breaks long contracts into several lines.

use std::alloc::{AllocError, Global};

const WIDTH: usize = 100;

/// Appends a text to `out`, and breaks long contracts in the text into several lines. A line is
/// broken before a word that begins with `(` or `⟦`, and after `;`. It is also broken after `,` if
/// the contract names no types.
pub fn push_wrapped(alloc: Global, out: &mut String, text: &str) -> Result<(), AllocError> {
    for line in text.lines() {
        if is_long_clause(line) {
            push_clause(alloc, out, line)?;
        } else {
            out.push_str(line)?;
        }
        out.push('\n')?;
    }
    Ok(())
}

fn is_long_clause(line: &str) -> bool {
    line.chars().count() > WIDTH
        && (line.contains('⟦') || line.contains("record {") || line.contains("ghost fields"))
}

fn push_clause(alloc: Global, out: &mut String, line: &str) -> Result<(), AllocError> {
    let mut column = 0usize;
    let mut group = String::new(alloc);
    let mut before = '(';
    let mut is_end = false;
    let has_types = line.contains('⟦');
    for character in line.chars() {
        if before == ' ' && (is_end || character == '(' || character == '⟦') {
            column = push_group(out, group.as_str(), column)?;
            group = String::new(alloc);
        }
        group.push(character)?;
        if character != ' ' {
            is_end = character == ';' || (character == ',' && !has_types);
        }
        before = character;
    }
    let _end = push_group(out, group.as_str(), column)?;
    Ok(())
}

// Adds words that stay on one line, on a new line if this one has no room, and returns the column
// after them.
fn push_group(out: &mut String, group: &str, column: usize) -> Result<usize, AllocError> {
    let words = group.trim_end();
    let width = words.chars().count();
    if column == 0 {
        out.push_str(words)?;
        return Ok(width);
    }
    if column.saturating_add(width).saturating_add(1) > WIDTH {
        out.push_str("\n        ")?;
        out.push_str(words)?;
        return Ok(width.saturating_add(8));
    }
    out.push(' ')?;
    out.push_str(words)?;
    Ok(column.saturating_add(width).saturating_add(1))
}
