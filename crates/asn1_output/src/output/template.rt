//! Templates: texts with placeholders.

use std::alloc::{AllocError, Global};

/// The texts for the placeholders of a template.
pub trait Places {
    /// Appends the text for the placeholder with this letter.
    fn push_place(&self, out: &mut String, letter: char) -> Result<(), AllocError>;
}

/// Appends a template to `out`. Each `@` with the letter after it is a placeholder: it is replaced
/// by the text that `places` has for the letter.
pub fn fill<P: Places>(out: &mut String, template: &str, places: &P) -> Result<(), AllocError> {
    let mut is_place = false;
    for character in template.chars() {
        if is_place {
            places.push_place(out, character)?;
            is_place = false;
        } else if character == '@' {
            is_place = true;
        } else {
            out.push(character)?;
        }
    }
    Ok(())
}

/// The text of a template, in which the placeholders are replaced.
pub fn filled<P: Places>(alloc: Global, template: &str, places: &P) -> Result<String, AllocError> {
    let mut text = String::new(alloc);
    fill(&mut text, template, places)?;
    Ok(text)
}

/// A list of texts, each with an index from 0.
pub trait Items {
    /// Appends the text with this index.
    fn push_item(&self, out: &mut String, index: usize) -> Result<(), AllocError>;
}

/// A list of texts that [`push_tuple`] writes as a tuple. The texts are only the members of the
/// tuple. This trait has what is written in front of the first member and between two members.
pub trait Tuples: Items {
    /// The text in front of the first member of a tuple with `count` members. It has the opening
    /// parenthesis.
    fn open(&self, count: usize) -> &'static str;

    /// The text between two members of a tuple, such as a comma and a space.
    fn between(&self) -> &'static str;
}

/// Appends the first `count` texts as a tuple, with parentheses. A single text is appended without
/// parentheses.
pub fn push_tuple<T: Tuples>(out: &mut String, items: &T, count: usize) -> Result<(), AllocError> {
    if count > 1 {
        out.push_str(items.open(count))?;
    }
    for index in 0..count {
        if index > 0 {
            out.push_str(items.between())?;
        }
        items.push_item(out, index)?;
    }
    if count > 1 {
        out.push(')')?;
    }
    Ok(())
}
