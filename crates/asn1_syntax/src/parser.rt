//! The parser.

mod assignments;
mod classes;
mod constraints;
mod digits;
mod expansions;
mod header;
mod leaf_types;
mod marks;
mod next_assignment;
mod numbering;
mod numbers;
mod objects;
mod outlines;
mod places;
mod types;
mod values;

use crate::failure::Failure;
use crate::information_object::InformationObject;
use crate::item::Item;
use crate::item_kind::ItemKind;
use crate::items::items_of;
use crate::lines::push_line;
use crate::module::{Import, ParsedModule};
use crate::name_index::NameIndex;
use crate::object_set::TableUse;
use crate::outline::ModuleOutline;
use crate::refusal::Refusal;
use crate::simple_type::SimpleType;
use crate::type_node::TypeNode;
use crate::warning::Warning;
use digits::check_digits;
use places::Frame;
use std::alloc::{AllocError, Global};

/// The greatest number of types that may be nested in one another. The outermost type counts.
const MAX_DEPTH: u32 = 64;

/// The state of the parser: the lexical items of a text, the index of the next one, and what was
/// read.
#[derive(Drop)]
struct Parser<'a> {
    alloc: Global,
    text: &'a str,
    items: Vec<Item<'a>>,
    at: usize,
    nodes: Vec<TypeNode<'a>>,
    // The names after `DEFINED BY` in components that are not parsed to their end.
    defined_by: Vec<Item<'a>>,
    // How many brackets `[[` of the components that are being parsed are open.
    versions: u32,
    warnings: Vec<Warning<'a>>,
    // The modules of the text, and the number of each name.
    modules: Vec<ModuleOutline<'a>>,
    numbers: NameIndex<'a>,
    // The number of the module to which each name belongs, and the names of others for theirs.
    owners: NameIndex<'a>,
    own_names: NameIndex<'a>,
    // The names that stand for others: the first frames are those of the modules.
    frames: Vec<Frame<'a>>,
    frame: usize,
    // How many names of the assignment were replaced by types.
    expansions: u32,
    // The field of a class that was read, and its type if its class has it nowhere.
    field: Option<Item<'a>>,
    field_type: Option<SimpleType>,
    imports: Vec<Import<'a>>,
    objects: Vec<InformationObject<'a>>,
    tables: Vec<TableUse<'a>>,
}

/// Parses the first module of a text, and the modules after it, from which the first module may
/// import. It does not look up what a name stands for.
///
/// If two modules of the text assign the same name, one of the assignments gets a new name. The
/// text must have the new names at its end, as the lines that [`own_names`] returns.
///
/// # Errors
///
/// The first fault of the first module. An invalid assignment of a later module is left out
/// instead.
pub fn parse_module<'a>(alloc: Global, text: &'a str) -> Result<ParsedModule<'a>, Failure<'a>> {
    let mut parser = outlined(alloc, text)?;
    let mut module = parser.module_with_assignments()?;
    let Parser {
        nodes,
        warnings,
        imports,
        objects,
        tables,
        ..
    } = parser;
    module.nodes = nodes;
    module.warnings = warnings;
    module.imports = imports;
    module.objects = objects;
    module.tables = tables;
    module.look_up_names(alloc)?;
    Ok(module)
}

/// Finds the modules of a text. It parses their headers, but not their assignments.
pub fn outline_of<'a>(alloc: Global, text: &'a str) -> Result<Vec<ModuleOutline<'a>>, Failure<'a>> {
    let parser = outlined(alloc, text)?;
    Ok(parser.modules)
}

/// Returns new names, of the form `name-Module`, for names that several modules of a text assign.
/// One module keeps the name: the module that defines what the name means in the first module,
/// otherwise the first module that assigns the name. Each of the other modules gets a new name.
///
/// Each new name is an ASN.1 comment on a line of its own. Before a call of [`parse_module`], the
/// caller must append these lines to the text, after the last module.
pub fn own_names<'a>(alloc: Global, text: &'a str) -> Result<String, Failure<'a>> {
    let parser = outlined(alloc, text)?;
    let mut lines = String::new(alloc);
    for (number, outline) in parser.modules.iter().enumerate() {
        add_own_names(alloc, &parser.owners, number, outline, &mut lines)?;
    }
    Ok(lines)
}

fn add_own_names(
    alloc: Global,
    owners: &NameIndex<'_>,
    number: usize,
    outline: &ModuleOutline<'_>,
    lines: &mut String,
) -> Result<(), AllocError> {
    let of = outline.name.text;
    for name in outline.definitions.names.iter() {
        if owners.find(name) != Some(number) {
            let line = format!(in alloc; "-- {name}-{of}")?;
            push_line(lines, line.as_str())?;
        }
    }
    Ok(())
}

// The parser of a text, whose modules it has found.
fn outlined<'a>(alloc: Global, text: &'a str) -> Result<Parser<'a>, Failure<'a>> {
    let mut parser = parser_of(alloc, text)?;
    parser.outline()?;
    Ok(parser)
}

fn parser_of<'a>(alloc: Global, text: &'a str) -> Result<Parser<'a>, Failure<'a>> {
    let items = items_of(alloc, text)?;
    check_digits(&items)?;
    Ok(Parser {
        alloc,
        text,
        items,
        at: 0,
        nodes: Vec::new(alloc),
        defined_by: Vec::new(alloc),
        versions: 0,
        warnings: Vec::new(alloc),
        modules: Vec::new(alloc),
        numbers: NameIndex::new(alloc),
        owners: NameIndex::new(alloc),
        own_names: NameIndex::new(alloc),
        frames: Vec::new(alloc),
        frame: 0,
        expansions: 0,
        field: None,
        field_type: None,
        imports: Vec::new(alloc),
        objects: Vec::new(alloc),
        tables: Vec::new(alloc),
    })
}

/// The failure which says that `item` was found where `expected` was expected.
fn refused<'a>(item: Item<'a>, expected: &'static str) -> Failure<'a> {
    Failure::Refused(Refusal::of(item, expected))
}

/// The failure for something that is not supported, and that begins with `item` or has `item` as
/// its name. `expected` says what is supported instead.
fn unsupported<'a>(item: Item<'a>, expected: &'static str) -> Failure<'a> {
    Failure::Unsupported(Refusal::of(item, expected))
}

impl<'a> Parser<'a> {
    // The first module, with the assignments of all modules. What they hold is in the parser.
    fn module_with_assignments(&mut self) -> Result<ParsedModule<'a>, Failure<'a>> {
        let mut module = self.first_module()?;
        for import in module.imports.iter() {
            self.imports.push(*import)?;
        }
        for number in 0..self.modules.len() {
            self.assignments_of(number, &mut module)?;
        }
        Ok(module)
    }

    /// The next lexical item.
    fn peek(&self) -> Item<'a> {
        self.item_at(self.at)
    }

    /// The lexical item after the next one.
    fn peek_second(&self) -> Item<'a> {
        self.item_at(self.at.saturating_add(1))
    }

    /// Whether the next lexical item is the word or symbol `text`.
    fn sees(&self, text: &str) -> bool {
        self.peek().is(text)
    }

    /// Whether the lexical item after the next one is the word or symbol `text`.
    fn sees_second(&self, text: &str) -> bool {
        self.peek_second().is(text)
    }

    /// Whether the lexical item with this index is the word or symbol `text`.
    fn has_at(&self, at: usize, text: &str) -> bool {
        self.item_at(at).is(text)
    }

    /// The failure which says that the next lexical item was found where `expected` was expected.
    fn refusal(&self, expected: &'static str) -> Failure<'a> {
        refused(self.peek(), expected)
    }

    // The item with this number. In the place of a name, it has the offset of that.
    fn item_at(&self, at: usize) -> Item<'a> {
        let Some(item) = self.items.get(at) else {
            return Item::END;
        };
        match self.frames.get(self.frame) {
            Some(
                Frame {
                    offset: Some(offset),
                    ..
                },
            ) => Item {
                offset: *offset,
                ..*item
            },
            _ => *item,
        }
    }

    /// Returns the next lexical item, and moves past it.
    fn next(&mut self) -> Item<'a> {
        let item = self.peek();
        self.at = self.at.saturating_add(1);
        item
    }

    /// Moves past the next lexical item if it is the word or symbol `text`. Returns whether it is.
    fn takes(&mut self, text: &str) -> bool {
        let is_here = self.sees(text);
        if is_here {
            self.at = self.at.saturating_add(1);
        }
        is_here
    }

    /// Moves past the next lexical item. Fails if that item is not the word or symbol `text`.
    fn expect(&mut self, text: &'static str) -> Result<(), Failure<'a>> {
        if self.takes(text) {
            return Ok(());
        }
        Err(self.refusal(text))
    }

    /// Moves past the next lexical item, and returns it. Fails if the kind of the item is not
    /// `kind`.
    fn expect_kind(
        &mut self,
        kind: ItemKind,
        expected: &'static str,
    ) -> Result<Item<'a>, Failure<'a>> {
        let item = self.peek();
        if item.kind == kind {
            self.at = self.at.saturating_add(1);
            return Ok(item);
        }
        Err(refused(item, expected))
    }

    /// Moves past the next lexical item, and adds a warning about this item. `text` is the text of
    /// the warning.
    fn mark(&mut self, text: &'static str) -> Result<(), Failure<'a>> {
        let mark = self.next();
        let warning = Warning::of(self.alloc, mark, text)?;
        self.warnings.push(warning)?;
        Ok(())
    }
}
