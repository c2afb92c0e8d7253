//! Finds the assignments that are left out of a module.

use super::used::Used;
use crate::external::External;
use asn1_syntax::{Failure, Import, Item, LeftOut, NameIndex, ParsedModule, Refusal};
use std::alloc::{AllocError, Global};

const NOT_GIVEN: &str = "a module that --with or --modules gives";

const NOT_ASSIGNED: &str = "a name that is not left out of its module";

const LEFT_OUT: &str = "a name that is not left out";

/// The assignments that are left out of a module, in the order of the text. An assignment is left
/// out if it is not supported, or if it refers to something that is not supported or cannot be
/// imported.
pub fn left_out_of<'a>(
    alloc: Global,
    parsed: &ParsedModule<'a>,
    externals: &Vec<External<'a>>,
    used: &Vec<Used<'a>>,
    known: &Vec<Refusal<'a>>,
) -> Result<Vec<LeftOut<'a>>, Failure<'a>> {
    let mut left = Left::new(alloc);
    for import in parsed.imports.iter() {
        if let Some(refusal) = missing(externals, import) {
            left.add(import.name, refusal)?;
        }
    }
    let imports = left.list.len();
    for left_out in parsed.left_out.iter() {
        left.add(left_out.name, left_out.refusal)?;
    }
    for refusal in known.iter() {
        left.add_known(used, *refusal)?;
    }
    left.spread(alloc, used, imports)?;
    let mut found = Vec::new(alloc);
    for left_out in left.list.iter().skip(imports) {
        found.push(*left_out)?;
    }
    found.sort_by_key(|left_out| left_out.name.offset)?;
    Ok(found)
}

/// Why a name cannot be imported: its module is not among `externals`, or that module leaves out
/// the name. `None` if the name can be imported.
pub fn missing<'a>(externals: &Vec<External<'a>>, import: &Import<'a>) -> Option<Refusal<'a>> {
    for external in externals.iter() {
        if external.module == import.module.text {
            if external.left_out.has(import.name.text) {
                return Some(Refusal::of(import.name, NOT_ASSIGNED));
            }
            return None;
        }
    }
    Some(Refusal::of(import.module, NOT_GIVEN))
}

// The names that are left out.
#[derive(Drop)]
struct Left<'a> {
    list: Vec<LeftOut<'a>>,
    names: NameIndex<'a>,
}

impl<'a> Left<'a> {
    fn new(alloc: Global) -> Self {
        Left {
            list: Vec::new(alloc),
            names: NameIndex::new(alloc),
        }
    }

    // Leaves a name out, unless it is.
    fn add(&mut self, name: Item<'a>, refusal: Refusal<'a>) -> Result<(), AllocError> {
        if self.names.add(name.text, self.list.len())? {
            self.list.push(LeftOut { name, refusal })?;
        }
        Ok(())
    }

    // Leaves out the assignment that holds something that is not supported.
    fn add_known(&mut self, used: &Vec<Used<'a>>, refusal: Refusal<'a>) -> Result<(), Failure<'a>> {
        let mut owner = None;
        for assigned in used.iter() {
            if assigned.name.offset <= refusal.offset {
                owner = Some(assigned.name);
            }
        }
        match owner {
            Some(name) if !self.names.has(name.text) => Ok(self.add(name, refusal)?),
            Some(_) => Ok(()),
            None => Err(Failure::Refused(refusal)),
        }
    }

    // Leaves out what names something that is left out. The first names are those of imports.
    fn spread(
        &mut self,
        alloc: Global,
        used: &Vec<Used<'a>>,
        imports: usize,
    ) -> Result<(), AllocError> {
        let users = Users::of(alloc, used)?;
        for at in 0..used.len().saturating_add(self.list.len()) {
            let Some(cause) = self.list.get(at) else {
                break;
            };
            let cause = *cause;
            self.add_users(&users, used, cause, at < imports)?;
        }
        Ok(())
    }

    // Leaves out what names this cause.
    fn add_users(
        &mut self,
        users: &Users<'a>,
        used: &Vec<Used<'a>>,
        cause: LeftOut<'a>,
        is_import: bool,
    ) -> Result<(), AllocError> {
        let Some(list) = users.of_name(cause.name.text) else {
            return Ok(());
        };
        for (number, item) in list.iter() {
            if let Some(assigned) = used.get(*number) {
                let refusal = if is_import {
                    cause.refusal
                } else {
                    Refusal::of(*item, LEFT_OUT)
                };
                self.add(assigned.name, refusal)?;
            }
        }
        Ok(())
    }
}

// The assignments that use each name.
#[derive(Drop)]
struct Users<'a> {
    names: NameIndex<'a>,
    // The number of each assignment, with the name where it stands.
    lists: Vec<Vec<(usize, Item<'a>)>>,
}

impl<'a> Users<'a> {
    fn of(alloc: Global, used: &Vec<Used<'a>>) -> Result<Self, AllocError> {
        let mut users = Users {
            names: NameIndex::new(alloc),
            lists: Vec::new(alloc),
        };
        for (number, assigned) in used.iter().enumerate() {
            for name in assigned.names.iter() {
                users.add(alloc, *name, number)?;
            }
        }
        Ok(users)
    }

    fn add(&mut self, alloc: Global, name: Item<'a>, number: usize) -> Result<(), AllocError> {
        if self.names.add(name.text, self.lists.len())? {
            self.lists.push(Vec::new(alloc))?;
        }
        if let Some(place) = self.names.find(name.text)
            && let Some(list) = self.lists.get_mut(place)
        {
            list.push((number, name))?;
        }
        Ok(())
    }

    fn of_name(&self, name: &str) -> Option<&Vec<(usize, Item<'a>)>> {
        self.lists.get(self.names.find(name)?)
    }
}
