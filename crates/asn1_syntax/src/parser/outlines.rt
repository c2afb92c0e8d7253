//! The outlines of the modules of a text.

use super::Parser;
use super::places::Frame;
use crate::failure::Failure;
use crate::item::Item;
use crate::item_kind::ItemKind;
use crate::module::ParsedModule;
use crate::module_index::ModuleIndex;
use crate::name_index::NameIndex;
use crate::outline::ModuleOutline;
use crate::tagging::TagDefault;

impl<'a> Parser<'a> {
    /// Finds the modules of the text, and the names of their assignments. The assignments are not
    /// parsed.
    pub(super) fn outline(&mut self) -> Result<(), Failure<'a>> {
        for _ in 0..self.items.len() {
            let number = self.modules.len();
            let outline = self.module_outline()?;
            self.numbers.add(outline.name.text, number)?;
            self.modules.push(outline)?;
            self.frames.push(Frame {
                module: number,
                offset: None,
                outer: number,
                parameters: Vec::new(self.alloc),
            })?;
            if !self.begins_module() {
                break;
            }
        }
        self.add_owners()?;
        self.add_own_names()
    }

    /// Whether the next lexical items begin a module.
    pub(super) fn begins_module(&self) -> bool {
        self.peek().kind == ItemKind::UpperName
            && self.peek_second().is_one_of(&["DEFINITIONS", "{"])
    }

    // The outline of the module that begins here, after which this moves.
    fn module_outline(&mut self) -> Result<ModuleOutline<'a>, Failure<'a>> {
        let (name, tags) = self.header()?;
        let exports = self.exports()?;
        let imports = self.imports()?;
        let mut imported = NameIndex::new(self.alloc);
        for (number, import) in imports.iter().enumerate() {
            imported.add(import.name.text, number)?;
        }
        let start = self.at;
        let definitions = self.definitions()?;
        let end = self.peek().offset;
        self.takes("END");
        Ok(ModuleOutline {
            name,
            tags,
            exports,
            imports,
            imported,
            start,
            end,
            definitions,
        })
    }

    // The names of the assignments from here on. Moves to END.
    fn definitions(&mut self) -> Result<NameIndex<'a>, Failure<'a>> {
        let mut names = NameIndex::new(self.alloc);
        for _ in 0..self.items.len() {
            let item = self.peek();
            if item.kind == ItemKind::End || item.is("END") {
                break;
            }
            if matches!(item.kind, ItemKind::UpperName | ItemKind::LowerName) {
                names.add(item.text, self.at)?;
            }
            self.to_next_assignment(self.at);
        }
        Ok(names)
    }

    // Finds the module to which each name belongs: the first one that defines it, or the first module
    // if that imports it from none of these.
    fn add_owners(&mut self) -> Result<(), Failure<'a>> {
        let mut owners = NameIndex::new(self.alloc);
        if let Some(first) = self.modules.first() {
            for name in first.definitions.names.iter() {
                owners.add(*name, 0)?;
            }
            for name in first.imported.names.iter() {
                owners.add(*name, self.definer_of(name))?;
            }
        }
        for (number, outline) in self.modules.iter().enumerate() {
            for name in outline.definitions.names.iter() {
                owners.add(*name, number)?;
            }
        }
        self.owners = owners;
        Ok(())
    }

    // The number of the module that defines what a name means in the first module; that of the first
    // module if none of the text does.
    fn definer_of(&self, name: &str) -> usize {
        match self.find_at(0, name) {
            Some(place) => place.frame,
            None => 0,
        }
    }

    // Finds the names after the last module that are those of no other module.
    fn add_own_names(&mut self) -> Result<(), Failure<'a>> {
        let last = match self.items.last() {
            Some(item) => item.comments,
            None => "",
        };
        for line in last.lines() {
            if let Some(name) = line.strip_prefix("-- ") {
                let number = self.own_names.names.len();
                self.own_names.add(name, number)?;
            }
        }
        Ok(())
    }

    /// The first module with its header, exports and imports, but without its assignments.
    pub(super) fn first_module(&self) -> Result<ParsedModule<'a>, Failure<'a>> {
        let mut module = ParsedModule {
            name: Item::END,
            tags: TagDefault::Explicit,
            end: 0,
            imports: Vec::new(self.alloc),
            exports: Vec::new(self.alloc),
            types: Vec::new(self.alloc),
            values: Vec::new(self.alloc),
            objects: Vec::new(self.alloc),
            sets: Vec::new(self.alloc),
            tables: Vec::new(self.alloc),
            nodes: Vec::new(self.alloc),
            left_out: Vec::new(self.alloc),
            passed: NameIndex::new(self.alloc),
            index: ModuleIndex::new(self.alloc),
            warnings: Vec::new(self.alloc),
        };
        if let Some(first) = self.modules.first() {
            module.name = first.name;
            module.tags = first.tags;
            module.end = first.end;
            for name in first.exports.iter() {
                module.exports.push(*name)?;
            }
            for import in first.imports.iter() {
                if self.definer_of(import.name.text) == 0 {
                    module.imports.push(*import)?;
                }
            }
        }
        Ok(module)
    }
}
