//! The header of a module, its exports and its imports.

use super::{Parser, refused};
use crate::failure::Failure;
use crate::item::Item;
use crate::item_kind::ItemKind;
use crate::module::Import;
use crate::tagging::TagDefault;

const NO_MARKS: &str = "types get no extension marks: what they do not name is refused";

impl<'a> Parser<'a> {
    /// Parses the header up to `BEGIN`. Returns the name of the module, and whether its tags are
    /// explicit, implicit or automatic.
    pub(super) fn header(&mut self) -> Result<(Item<'a>, TagDefault), Failure<'a>> {
        let name = self.module_name()?;
        self.expect("DEFINITIONS")?;
        let tags = self.tag_default()?;
        if self.sees("EXTENSIBILITY") {
            self.mark(NO_MARKS)?;
            self.expect("IMPLIED")?;
        }
        self.expect("::=")?;
        self.expect("BEGIN")?;
        Ok((name, tags))
    }

    fn tag_default(&mut self) -> Result<TagDefault, Failure<'a>> {
        let tags = if self.takes("EXPLICIT") {
            TagDefault::Explicit
        } else if self.takes("IMPLICIT") {
            TagDefault::Implicit
        } else if self.takes("AUTOMATIC") {
            TagDefault::Automatic
        } else {
            return Ok(TagDefault::Explicit);
        };
        self.expect("TAGS")?;
        Ok(tags)
    }

    /// Parses `EXPORTS`, and returns the names after it. Returns no names if the next lexical item
    /// is not `EXPORTS`, and for `EXPORTS ALL`.
    pub(super) fn exports(&mut self) -> Result<Vec<Item<'a>>, Failure<'a>> {
        let mut names = Vec::new(self.alloc);
        if !self.takes("EXPORTS") {
            return Ok(names);
        }
        for _ in 0..self.items.len() {
            if self.takes(";") {
                return Ok(names);
            }
            let item = self.next();
            match item.kind {
                ItemKind::UpperName if item.text == "ALL" => {}
                ItemKind::UpperName | ItemKind::LowerName => names.push(item)?,
                _ if item.is(",") => {}
                _ if item.is("{") && self.takes("}") => {}
                _ => return Err(refused(item, "a name, a comma or ;")),
            }
        }
        Err(self.refusal(";"))
    }

    /// Parses `IMPORTS`, and returns the imported names. Returns no names if the next lexical item
    /// is not `IMPORTS`.
    pub(super) fn imports(&mut self) -> Result<Vec<Import<'a>>, Failure<'a>> {
        let mut imports = Vec::new(self.alloc);
        if !self.takes("IMPORTS") {
            return Ok(imports);
        }
        for _ in 0..self.items.len() {
            if self.takes(";") {
                return Ok(imports);
            }
            self.imports_of_module(&mut imports)?;
        }
        Err(self.refusal(";"))
    }

    fn imported_names(&mut self) -> Result<Vec<Item<'a>>, Failure<'a>> {
        let mut names = Vec::new(self.alloc);
        for _ in 0..self.items.len() {
            let name = self.next();
            match name.kind {
                ItemKind::UpperName | ItemKind::LowerName => names.push(name)?,
                _ => return Err(refused(name, "a name that is imported")),
            }
            self.empty_braces()?;
            if !self.takes(",") {
                break;
            }
        }
        Ok(names)
    }

    // Moves past the braces after a name with parameters (X.680, 13.1).
    fn empty_braces(&mut self) -> Result<(), Failure<'a>> {
        if self.takes("{") {
            self.expect("}")?;
        }
        Ok(())
    }

    // Parses the name of a module, and moves past the OBJECT IDENTIFIER after it.
    fn module_name(&mut self) -> Result<Item<'a>, Failure<'a>> {
        let name = self.expect_kind(ItemKind::UpperName, "the name of a module")?;
        if self.sees("{") {
            self.braces()?;
        }
        Ok(name)
    }

    // Whether the name at this place is one that is imported from the next module.
    fn begins_import(&self) -> bool {
        let after = self.peek_second();
        after.is_one_of(&[",", "FROM"])
            || (after.is("{") && self.has_at(self.at.saturating_add(2), "}"))
    }

    // Parses the names that one module defines, and its name.
    fn imports_of_module(&mut self, imports: &mut Vec<Import<'a>>) -> Result<(), Failure<'a>> {
        let names = self.imported_names()?;
        self.expect("FROM")?;
        let module = self.module_name()?;
        if self.peek().kind == ItemKind::LowerName && !self.begins_import() {
            self.at = self.at.saturating_add(1);
        }
        if self.takes("WITH") {
            self.next();
        }
        for name in names.iter() {
            imports.push(Import {
                name: *name,
                module,
            })?;
        }
        Ok(())
    }
}
