//! Finds the files and crates from which the Rust files import names.

use super::definition::Definition;
use super::directive::{name_of_type, own_default, own_type};
use super::imports::push_use;
use asn1_check::{ExternalType, Module};
use asn1_syntax::{Component, NameIndex, TypeForm, is_line_of, push_line};
use std::alloc::{AllocError, Global};

/// The files and the crates from which names are imported. For each name that a Rust file may use,
/// there is one file or crate.
#[derive(Drop)]
pub struct Sources<'m> {
    // The types that are written by hand, each on its line.
    by_hand: String,
    definitions: &'m Vec<Definition>,
    // The definition of each type.
    places: NameIndex<'m>,
    // The crates that hold imported types.
    crates: Vec<OtherCrate<'m>>,
}

/// Another crate, and the types that are imported from it.
#[derive(Drop)]
struct OtherCrate<'m> {
    name: &'m str,
    // The names of the types, each on its line.
    names: String,
}

impl<'m> Sources<'m> {
    /// Finds the files and crates from which the files of these definitions may import.
    pub fn of(
        alloc: Global,
        module: &'m Module<'_>,
        definitions: &'m Vec<Definition>,
    ) -> Result<Self, AllocError> {
        let mut sources = Sources {
            by_hand: types_by_hand(alloc, module)?,
            definitions,
            places: NameIndex::new(alloc),
            crates: Vec::new(alloc),
        };
        for (place, definition) in definitions.iter().enumerate() {
            for name in definition.names.lines() {
                sources.places.add(name, place)?;
            }
        }
        for imported in module.imported.list.iter() {
            sources.add_imported(alloc, imported)?;
        }
        Ok(sources)
    }

    // Adds a type of another crate.
    fn add_imported(
        &mut self,
        alloc: Global,
        imported: &'m ExternalType<'_>,
    ) -> Result<(), AllocError> {
        let name = imported.krate.as_str();
        for other in self.crates.iter_mut() {
            if other.name == name {
                return push_line(&mut other.names, imported.rust_name.as_str());
            }
        }
        let mut names = String::new(alloc);
        push_line(&mut names, imported.rust_name.as_str())?;
        self.crates.push(OtherCrate { name, names })?;
        Ok(())
    }

    /// Appends the imports from files of the same crate that a definition needs. `words` are the
    /// words of its text. Imported are the types of other definitions, and types that are written
    /// by hand.
    pub fn push_own(
        &self,
        alloc: Global,
        out: &mut String,
        definition: &Definition,
        words: &NameIndex<'_>,
    ) -> Result<(), AllocError> {
        push_use(alloc, out, words, "crate", self.by_hand.as_str())?;
        for place in self.places_of(alloc, words)?.iter() {
            if let Some(other) = self.definitions.get(*place)
                && other.file.as_str() != definition.file.as_str()
            {
                let file = other.file.as_str();
                let path = format!(in alloc; "crate::asn1::{file}")?;
                push_use(alloc, out, words, path.as_str(), other.names.as_str())?;
            }
        }
        Ok(())
    }

    // The definitions of types that are among the words, each once, in their order.
    fn places_of(&self, alloc: Global, words: &NameIndex<'_>) -> Result<Vec<usize>, AllocError> {
        let mut places = Vec::new(alloc);
        for word in words.names.iter() {
            if let Some(place) = self.places.find(word) {
                places.push(place)?;
            }
        }
        places.sort_unstable();
        places.dedup();
        Ok(places)
    }

    /// Appends the imports from other crates that a definition needs. `words` are the words of its
    /// text.
    pub fn push_imported(
        &self,
        alloc: Global,
        out: &mut String,
        words: &NameIndex<'_>,
    ) -> Result<(), AllocError> {
        for other in self.crates.iter() {
            push_use(alloc, out, words, other.name, other.names.as_str())?;
        }
        Ok(())
    }
}

// The types that are written by hand, each on its line.
fn types_by_hand(alloc: Global, module: &Module<'_>) -> Result<String, AllocError> {
    let mut names = String::new(alloc);
    for assigned in module.types.iter() {
        if let Some(own) = own_type(module, assigned.of) {
            push_line(&mut names, name_of_type(own))?;
        }
    }
    for node in module.nodes.iter() {
        if let TypeForm::Sequence(components) = &node.form {
            push_own_defaults(&mut names, components)?;
        }
    }
    Ok(names)
}

// Adds the types that are written by hand and stand for the defaults of these components.
fn push_own_defaults(
    names: &mut String,
    components: &Vec<Component<'_>>,
) -> Result<(), AllocError> {
    for component in components.iter() {
        if let Some(default) = own_default(component.name)
            && !is_line_of(names.as_str(), default)
        {
            push_line(names, default)?;
        }
    }
    Ok(())
}
