//! Values as lists of lexical items.

use crate::library::Library;
use asn1_syntax::{Item, ItemKind, Value, ValueForm};
use std::alloc::{AllocError, Global};

/// A value, as the lexical items that are written for it.
#[derive(Drop)]
pub struct Words<'a> {
    /// Whether the value is one item, a negative number, or items in braces.
    pub form: WordsForm,
    /// The lexical items of the value, without the braces around them. Of a negative number, it may
    /// have only the minus sign.
    pub items: Vec<Item<'a>>,
}

/// How a value is written.
#[derive(Clone, Copy, Debug)]
pub enum WordsForm {
    /// The value is one lexical item.
    Item,
    /// The value is a minus sign and this number.
    Negative(u64),
    /// The value is a pair of braces with lexical items in between.
    Braces,
    /// The value has another form, which the compiler does not read.
    Unread,
}

impl<'a> Words<'a> {
    /// Makes a value of all its lexical items. If the value is written in braces, `items` include
    /// the braces.
    pub fn of(alloc: Global, items: &[Item<'a>]) -> Result<Self, AllocError> {
        let form = form_of(items);
        let inside = match form {
            WordsForm::Braces => items.get(1..items.len().saturating_sub(1)).unwrap_or(&[]),
            _ => items,
        };
        Words::new(alloc, form, inside)
    }

    /// Makes a value of this form. `items` are copied. If the value is written in braces, `items`
    /// are the items between the braces.
    pub fn new(alloc: Global, form: WordsForm, items: &[Item<'a>]) -> Result<Self, AllocError> {
        let mut copies = Vec::new(alloc);
        for item in items {
            copies.push(*item)?;
        }
        Ok(Words {
            form,
            items: copies,
        })
    }

    /// Makes a value of a value that the parser has read. If the value is a negative number, or if
    /// the parser has skipped it, only its first lexical item is kept.
    pub fn of_value(alloc: Global, value: &Value<'a>) -> Result<Self, AllocError> {
        let one = [value.item];
        match &value.form {
            ValueForm::Item => Words::new(alloc, WordsForm::Item, &one),
            ValueForm::Negative(number) => Words::new(alloc, WordsForm::Negative(*number), &one),
            ValueForm::Braces(items) => Words::new(alloc, WordsForm::Braces, items.as_slice()),
            ValueForm::Unread => Words::new(alloc, WordsForm::Unread, &one),
        }
    }

    /// The lexical item of the value, if the value is one item; otherwise `None`.
    pub fn item(&self) -> Option<Item<'a>> {
        match self.form {
            WordsForm::Item => self.items.first().copied(),
            _ => None,
        }
    }

    /// Whether the value is written in braces.
    pub fn is_braces(&self) -> bool {
        matches!(self.form, WordsForm::Braces)
    }

    /// Whether the value is braces with nothing between them.
    pub fn is_empty_braces(&self) -> bool {
        self.is_braces() && self.items.is_empty()
    }

    /// The name, if the value is the name of another value or of a number; otherwise `None`.
    pub fn name(&self) -> Option<Item<'a>> {
        let item = self.item()?;
        if item.kind == ItemKind::LowerName {
            return Some(item);
        }
        None
    }

    /// The lexical items of one component of a value in braces, such as `{a 1, b 2}`. They come
    /// after the name of the component. `None` if there is no component with this name.
    pub fn component(&self, name: &str) -> Option<&[Item<'a>]> {
        let mut start = 0usize;
        for at in 0..=self.items.len() {
            if self.is_end(start, at) {
                if let Some(first) = self.items.get(start)
                    && first.text == name
                {
                    return self.items.as_slice().get(start.saturating_add(1)..at);
                }
                start = at.saturating_add(1);
            }
        }
        None
    }

    // Whether a component that begins at an index ends in front of another: whether a comma outside of
    // braces, or no item, is there.
    fn is_end(&self, start: usize, at: usize) -> bool {
        let Some(item) = self.items.get(at) else {
            return true;
        };
        if !item.is(",") {
            return false;
        }
        let mut depth = 0u64;
        for item in self.items.as_slice().get(start..at).unwrap_or(&[]) {
            if item.is("{") {
                depth = depth.saturating_add(1);
            } else if item.is("}") {
                depth = depth.saturating_sub(1);
            }
        }
        depth == 0
    }
}

// How the value is written that these items are.
fn form_of(items: &[Item<'_>]) -> WordsForm {
    let (Some(first), Some(last)) = (items.first(), items.last()) else {
        return WordsForm::Unread;
    };
    if items.len() == 1 {
        return WordsForm::Item;
    }
    if first.is("{") && last.is("}") {
        return WordsForm::Braces;
    }
    match last.text.parse::<u64>() {
        Ok(number) if first.is("-") && items.len() == 2 => WordsForm::Negative(number),
        _ => WordsForm::Unread,
    }
}

/// The value that is assigned to this name; `None` if there is none.
pub fn value_named<'l, 'a>(library: &'l Library<'a>, name: &str) -> Option<&'l Value<'a>> {
    let number = library.module.index.values.find(name)?;
    match library.module.values.get(number) {
        Some(assigned) => Some(&assigned.value),
        None => None,
    }
}
