//! Lexical items.

use crate::item_kind::ItemKind;

/// A lexical item (X.680, 12) with its offset in the text of the module.
#[derive(Clone, Copy)]
pub struct Item<'a> {
    /// The kind of the item.
    pub kind: ItemKind,
    /// The characters of the item. Empty for the item that stands for the end of the text.
    pub text: &'a str,
    /// The index of the first octet of the item in the text of the module. Where the parser reads a
    /// type in place of a name, all items of the type have the offset of the name instead.
    pub offset: usize,
    /// The white space and the comments between the previous item and this item.
    pub comments: &'a str,
}

impl<'a> Item<'a> {
    /// The item that stands for the end of a text.
    pub const END: Item<'static> = Item {
        kind: ItemKind::End,
        text: "",
        offset: usize::MAX,
        comments: "",
    };

    /// Whether this item is the reserved word `text` or the symbol `text`.
    pub fn is(&self, text: &str) -> bool {
        match self.kind {
            ItemKind::UpperName | ItemKind::Symbol => self.text == text,
            _ => false,
        }
    }

    /// Whether this item is one of these reserved words and symbols.
    pub fn is_one_of(&self, texts: &[&str]) -> bool {
        for text in texts {
            if self.is(text) {
                return true;
            }
        }
        false
    }
}
