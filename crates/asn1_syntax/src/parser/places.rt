//! Where names are defined.

use super::next_assignment::{closes, opens, weight};
use super::{Parser, unsupported};
use crate::failure::Failure;
use crate::item::Item;
use crate::item_kind::ItemKind;
use crate::module::Import;
use crate::reserved::is_reserved;

/// The scope in which names are looked up while a type is read. It is the module of the type, and
/// the parameters of the type if there are any.
#[derive(Drop)]
pub struct Frame<'a> {
    /// The index of the module that contains the type.
    pub module: usize,
    /// The offset in the text of the name in whose place the type is read. The items of the type
    /// get this offset. `None` if the type is read where it is defined.
    pub offset: Option<usize>,
    /// The scope in which names in the arguments are looked up, as an index among the `frames` of
    /// the parser.
    pub outer: usize,
    /// The parameters of the type, each with its argument. Empty if the type has no parameters.
    pub parameters: Vec<Parameter<'a>>,
}

/// A parameter of a type, with the argument that is given for it.
#[derive(Clone, Copy)]
pub struct Parameter<'a> {
    /// The name of the parameter.
    pub name: &'a str,
    /// The index, among the lexical items, of the first item of the argument.
    pub at: usize,
}

/// Where a name is defined: at its assignment, or, for a parameter, where its argument is written.
#[derive(Clone, Copy)]
pub struct Place {
    /// An index among the lexical items: that of the assigned name, or that of the first item of
    /// the argument.
    pub at: usize,
    /// The scope ([`Frame`]) in which names at this place are looked up, as an index among the
    /// `frames` of the parser.
    pub frame: usize,
    /// Whether the name is a parameter, and the place is where its argument is written.
    pub is_argument: bool,
}

/// The place to which the parser comes back after it has read a type elsewhere.
#[derive(Clone, Copy)]
pub struct Back {
    at: usize,
    frame: usize,
    frames: usize,
}

const NOT_IMPORTED: &str = "a name of a module that is given";

impl<'a> Parser<'a> {
    /// Where this name is defined, as seen from the current scope ([`Frame`]). `None` if no module
    /// of the text defines the name.
    pub(super) fn find(&self, name: &str) -> Option<Place> {
        self.find_at(self.frame, name)
    }

    /// Where this name is defined, as seen from the scope ([`Frame`]) with this index. `None` if no
    /// module of the text defines the name.
    pub(super) fn find_at(&self, frame: usize, name: &str) -> Option<Place> {
        let of = self.frames.get(frame)?;
        for parameter in of.parameters.iter() {
            if parameter.name == name {
                return Some(Place {
                    at: parameter.at,
                    frame: of.outer,
                    is_argument: true,
                });
            }
        }
        self.find_in(of.module, name)
    }

    // Where this name is defined, for a module.
    fn find_in(&self, module: usize, name: &str) -> Option<Place> {
        let mut module = module;
        for _ in 0..self.modules.len() {
            let outline = self.modules.get(module)?;
            if let Some(at) = outline.definitions.find(name) {
                return Some(Place {
                    at,
                    frame: module,
                    is_argument: false,
                });
            }
            let import = outline.imports.get(outline.imported.find(name)?)?;
            module = self.numbers.find(import.module.text)?;
        }
        None
    }

    /// Moves the parser to a place, where it reads what the name `used` stands for. The parser must
    /// come back with [`Parser::come_back`], which takes what this function returns.
    ///
    /// If the place is an argument, names in it are looked up where the argument is written, and
    /// `parameters` is not used. Otherwise the place is an assignment, and `parameters` are those
    /// of its type with their arguments.
    pub(super) fn go(
        &mut self,
        place: Place,
        used: Item<'a>,
        parameters: Vec<Parameter<'a>>,
    ) -> Result<Back, Failure<'a>> {
        let back = Back {
            at: self.at,
            frame: self.frame,
            frames: self.frames.len(),
        };
        self.at = place.at;
        if place.is_argument {
            self.frame = place.frame;
            return Ok(back);
        }
        self.frames.push(Frame {
            module: place.frame,
            offset: Some(used.offset),
            outer: back.frame,
            parameters,
        })?;
        self.frame = back.frames;
        Ok(back)
    }

    /// Moves back to where the parser was before [`Parser::go`].
    pub(super) fn come_back(&mut self, back: Back) {
        self.at = back.at;
        self.frame = back.frame;
        self.frames.truncate(back.frames);
    }

    /// Follows the names of parameters. While the item at the place is the name of a parameter, the
    /// place of its argument is taken instead. Returns the last place.
    pub(super) fn after_parameters(&self, place: Place) -> Place {
        let mut place = place;
        for _ in 0..self.frames.len() {
            match self.find_at(place.frame, self.item_at(place.at).text) {
                Some(argument) if argument.is_argument => place = argument,
                _ => break,
            }
        }
        place
    }

    /// Replaces the name of an assignment by the name that is unique among the modules of the text.
    /// Returns `item` itself if it is not the name of an assignment.
    pub(super) fn own_name(&self, item: Item<'a>) -> Result<Item<'a>, Failure<'a>> {
        self.own_name_at(self.frame, item)
    }

    /// Does what [`Parser::own_name`] does, but looks up the name in the scope ([`Frame`]) with
    /// this index.
    pub(super) fn own_name_at(
        &self,
        frame: usize,
        item: Item<'a>,
    ) -> Result<Item<'a>, Failure<'a>> {
        match self.find_at(frame, item.text) {
            Some(place) => self.name_in(place.frame, item),
            None => Ok(item),
        }
    }

    /// The item with the name that an assignment of this module has after renaming. The name
    /// becomes `name-Module` if another module of the text keeps the name, as
    /// [`own_names`](super::own_names) describes. Otherwise the name stays.
    pub(super) fn name_in(&self, module: usize, item: Item<'a>) -> Result<Item<'a>, Failure<'a>> {
        match self.owners.find(item.text) {
            Some(owner) if owner != module => {}
            _ => return Ok(item),
        }
        let (name, of) = match self.modules.get(module) {
            Some(outline) => (item.text, outline.name.text),
            None => return Ok(item),
        };
        let word = format!(in self.alloc; "{name}-{of}")?;
        match self.own_names.find(word.as_str()) {
            Some(number) => match self.own_names.names.get(number) {
                Some(text) => Ok(Item { text, ..item }),
                None => Ok(item),
            },
            None => Err(unsupported(item, "a name that no other module has")),
        }
    }

    /// Adds the import of a name to the imports of the first module. No module of the text defines
    /// the name, and the module that is read now uses it. Does nothing if that is the first module.
    /// Fails if the module does not import the name, or if the name already stands for something
    /// else.
    pub(super) fn import(&mut self, item: Item<'a>) -> Result<(), Failure<'a>> {
        let module = self.module();
        if module == 0 {
            return Ok(());
        }
        let Some(import) = self.import_in(module, item.text) else {
            return Err(unsupported(item, NOT_IMPORTED));
        };
        if self.owners.add(item.text, 0)? {
            self.imports.push(import)?;
            return Ok(());
        }
        if self.is_imported(import) {
            return Ok(());
        }
        Err(unsupported(item, NOT_IMPORTED))
    }

    // The number of the module that is read.
    fn module(&self) -> usize {
        match self.frames.get(self.frame) {
            Some(frame) => frame.module,
            None => 0,
        }
    }

    fn import_in(&self, module: usize, name: &str) -> Option<Import<'a>> {
        let outline = self.modules.get(module)?;
        outline.imports.get(outline.imported.find(name)?).copied()
    }

    // Whether the first module has this import.
    fn is_imported(&self, import: Import<'a>) -> bool {
        for other in self.imports.iter() {
            if other.name.text == import.name.text {
                return other.module.text == import.module.text;
            }
        }
        false
    }

    /// The index, among the lexical items, after the bracket that closes the opening bracket at the
    /// index `at`. The number of lexical items if that bracket is not closed.
    pub(super) fn end_of_group(&self, at: usize) -> usize {
        let mut depth = 0u64;
        for end in at..self.items.len() {
            let item = self.item_at(end);
            if opens(item) {
                depth = depth.saturating_add(weight(item));
            } else if closes(item) {
                depth = depth.saturating_sub(weight(item));
            }
            if depth == 0 {
                return end.saturating_add(1);
            }
        }
        self.items.len()
    }

    /// Whether this item is the name of a type, a class or a set.
    pub(super) fn is_reference(item: Item<'a>) -> bool {
        item.kind == ItemKind::UpperName && !is_reserved(item.text)
    }
}
