//! The modules of a text, which may import from each other.

use crate::wrong::Wrong;
use asn1_check::{Module, Selection, link_module, select};
use asn1_syntax::{
    InformationObject, Item, LeftOut, ModuleOutline, NameIndex, ObjectSet, ParsedModule, Refusal,
    TableUse, TypeNode, outline_of,
};
use std::alloc::{AllocError, Global};
use std::mem;

const NOT_THERE: &str = "a type that this module defines or imports, and that is not left out";

/// The modules of a text.
#[derive(Drop)]
pub struct Library<'a> {
    /// All modules of the text, joined to one module. If two modules assign the same name, one of
    /// the two assignments has a new name here.
    pub module: Module<'a>,
    /// The assignments that are not compiled.
    pub left_out: Vec<LeftOut<'a>>,
    /// The information objects of all modules.
    pub objects: Vec<InformationObject<'a>>,
    /// The information object sets of all modules.
    pub sets: Vec<ObjectSet<'a>>,
    /// The table constraints of all modules.
    pub tables: Vec<TableUse<'a>>,
    /// The modules of the text, each with its header and the names of its assignments.
    pub outlines: Vec<ModuleOutline<'a>>,
    // The number of each module by its name, and the index of each type of a module by its name there.
    numbers: NameIndex<'a>,
    types: Vec<NameIndex<'a>>,
    object_numbers: NameIndex<'a>,
    set_numbers: NameIndex<'a>,
}

impl<'a> Library<'a> {
    /// Parses the modules of a text, and finds what the names in them stand for. An assignment is
    /// left out if it is not supported, or if a fault in `known` is in it. `known` holds faults
    /// that a former call, or a later step of the compiler, has found.
    ///
    /// Fails if the modules are not valid.
    pub fn of(alloc: Global, text: &'a str, known: &Vec<Refusal<'a>>) -> Result<Self, Wrong<'a>> {
        let externals = Vec::new(alloc);
        let Selection {
            mut parsed,
            left_out,
        } = select(alloc, &externals, text, &[], known)?;
        let objects = objects_of(alloc, &mut parsed);
        let sets = mem::replace(&mut parsed.sets, Vec::new(alloc));
        let tables = mem::replace(&mut parsed.tables, Vec::new(alloc));
        let mut library = Library {
            module: link_module(alloc, parsed, &externals)?,
            left_out,
            objects,
            sets,
            tables,
            outlines: outline_of(alloc, text)?,
            numbers: NameIndex::new(alloc),
            types: Vec::new(alloc),
            object_numbers: NameIndex::new(alloc),
            set_numbers: NameIndex::new(alloc),
        };
        library.look_up(alloc)?;
        library.look_up_objects()?;
        Ok(library)
    }

    // Finds the objects and the sets of them.
    fn look_up_objects(&mut self) -> Result<(), AllocError> {
        for (number, object) in self.objects.iter().enumerate() {
            self.object_numbers.add(object.name.text, number)?;
        }
        for (number, set) in self.sets.iter().enumerate() {
            self.set_numbers.add(set.name.text, number)?;
        }
        Ok(())
    }

    /// The information object with this name.
    pub fn object(&self, name: &str) -> Option<&InformationObject<'a>> {
        self.objects.get(self.object_numbers.find(name)?)
    }

    /// The information object set with this name.
    pub fn set(&self, name: &str) -> Option<&ObjectSet<'a>> {
        self.sets.get(self.set_numbers.find(name)?)
    }

    // Finds the types of each module.
    fn look_up(&mut self, alloc: Global) -> Result<(), AllocError> {
        for (number, outline) in self.outlines.iter().enumerate() {
            self.numbers.add(outline.name.text, number)?;
            self.types.push(NameIndex::new(alloc))?;
        }
        for assigned in self.module.types.iter() {
            let number = number_at(&self.outlines, assigned.name.offset);
            let name = written_name(&self.outlines, assigned.name);
            if let Some(types) = self.types.get_mut(number) {
                types.add(name, assigned.of)?;
            }
        }
        Ok(())
    }

    /// The type with this index.
    pub fn node(&self, index: usize) -> Option<&TypeNode<'a>> {
        self.module.nodes.get(index)
    }

    /// The name of the type with this index, as its module writes it. Empty if the type has no
    /// name.
    pub fn name_at(&self, index: usize) -> &'a str {
        match self.module.assignment(index) {
            Some(assigned) => written_name(&self.outlines, assigned.name),
            None => "",
        }
    }

    /// The name of the module that contains the octet at this offset of the text.
    pub fn module_at(&self, offset: usize) -> &'a str {
        match self.outlines.get(number_at(&self.outlines, offset)) {
            Some(outline) => outline.name.text,
            None => "",
        }
    }

    /// The index of the type with this name. Fails if there is no type with this name.
    pub fn named(&self, name: Item<'a>) -> Result<usize, Wrong<'a>> {
        match self.module.index.types.find(name.text) {
            Some(index) => Ok(index),
            None => Err(Wrong::Unsupported(Refusal::of(name, NOT_THERE))),
        }
    }

    /// The index of the type that a comment names. The name may be `MODULE.NAME`. Any other name is
    /// looked up in the module that contains the comment. `offset` is the offset of the comment in
    /// the text. `None` if there is no type with this name.
    pub fn commented(&self, offset: usize, name: &str) -> Option<usize> {
        match name.split_once('.') {
            Some((of, name)) => self.types.get(self.numbers.find(of)?)?.find(name),
            None => self.find_in(number_at(&self.outlines, offset), name),
        }
    }

    // The index of the type with this name in a module, or in the one from which it imports the name.
    fn find_in(&self, number: usize, name: &str) -> Option<usize> {
        if let Some(index) = self.types.get(number)?.find(name) {
            return Some(index);
        }
        let outline = self.outlines.get(number)?;
        let import = outline.imports.get(outline.imported.find(name)?)?;
        self.types
            .get(self.numbers.find(import.module.text)?)?
            .find(name)
    }

    /// The index of the type with this name, in the first module of the text that has it.
    pub fn find_anywhere(&self, name: &str) -> Option<usize> {
        for types in self.types.iter() {
            if let Some(index) = types.find(name) {
                return Some(index);
            }
        }
        None
    }
}

// The objects, each with its types.
fn objects_of<'a>(alloc: Global, parsed: &mut ParsedModule<'a>) -> Vec<InformationObject<'a>> {
    mem::replace(&mut parsed.objects, Vec::new(alloc))
}

// The number of the module with the item at this offset.
fn number_at(outlines: &Vec<ModuleOutline<'_>>, offset: usize) -> usize {
    let mut after = 0usize;
    for outline in outlines.iter() {
        if outline.name.offset <= offset {
            after = after.saturating_add(1);
        }
    }
    after.saturating_sub(1)
}

/// The name of an assignment, as its module writes it. The parser appends the name of the module to
/// some names that several modules assign. This function removes it.
pub fn written_name<'a>(outlines: &Vec<ModuleOutline<'a>>, name: Item<'a>) -> &'a str {
    match outlines.get(number_at(outlines, name.offset)) {
        Some(outline) if !outline.definitions.has(name.text) => {
            let without = name
                .text
                .strip_suffix(outline.name.text)
                .unwrap_or(name.text);
            without.strip_suffix("-").unwrap_or(name.text)
        }
        _ => name.text,
    }
}
