//! Alternatives of a CHOICE.

use super::directive::variant_name;
use super::docs::component_doc;
use super::known::unknown_type;
use super::taken::{ALONE, Taken};
use super::template::Places;
use super::types::component_types;
use asn1_check::{Module, RustKind, RustType};
use asn1_syntax::{Component, Failure, Item, TypeForm};
use std::alloc::{AllocError, Global};

const UNKNOWN: &str =
    "    /// An alternative that the ASN.1 module does not have, as it was read.\n";

/// An alternative of a CHOICE, as a variant of a Rust enum.
#[derive(Drop)]
pub struct Alternative {
    /// The name of the variant.
    pub name: String,
    /// The lines of the doc comment of the variant.
    pub doc: String,
    /// The Rust type of the value of the alternative.
    pub of: RustType,
}

impl Places for Alternative {
    fn push_place(&self, out: &mut String, letter: char) -> Result<(), AllocError> {
        match letter {
            'T' => out.push_str(self.of.text.as_str()),
            'M' => self.of.push_alternative(out),
            _ => Ok(()),
        }
    }
}

/// The alternatives of a CHOICE whose types are supported. If `keeping` is given, one more
/// alternative is added, for elements that the CHOICE does not describe. `keeping` is the Rust name
/// of the CHOICE.
pub fn alternatives<'a>(
    alloc: Global,
    module: &Module<'a>,
    table: &Vec<RustType>,
    components: &Vec<Component<'a>>,
    keeping: Option<&str>,
) -> Result<Vec<Alternative>, Failure<'a>> {
    let mut found = Vec::new(alloc);
    let types = component_types(alloc, module, table, components)?;
    let mut taken = Taken::new(alloc);
    for (component, of) in components.iter().zip(types.iter()) {
        if !is_unknown(module, component.of) {
            let name = variant_name(alloc, component.name)?;
            found.push(Alternative {
                name: taken.take_free(alloc, name.as_str(), ALONE, "")?,
                doc: component_doc(alloc, module, component, "The alternative")?,
                of: of.copy(alloc)?,
            })?;
        }
    }
    if let Some(name) = keeping {
        found.push(Alternative {
            name: taken.take_free(alloc, "Unknown", ALONE, "")?,
            doc: String::from_str(alloc, UNKNOWN)?,
            of: RustType::new(alloc, unknown_type(alloc, name)?.as_str(), RustKind::Choice)?,
        })?;
    }
    Ok(found)
}

/// The names of all alternatives in a module that are left out, because their types are not
/// supported.
pub fn left_out<'a>(alloc: Global, module: &Module<'a>) -> Result<Vec<Item<'a>>, AllocError> {
    let mut names = Vec::new(alloc);
    for node in module.nodes.iter() {
        if let TypeForm::Choice(alternatives) = &node.form {
            push_unknown(module, alternatives, &mut names)?;
        }
    }
    Ok(names)
}

fn push_unknown<'a>(
    module: &Module<'a>,
    alternatives: &Vec<Component<'a>>,
    names: &mut Vec<Item<'a>>,
) -> Result<(), AllocError> {
    for alternative in alternatives.iter() {
        if is_unknown(module, alternative.of) {
            names.push(alternative.name)?;
        }
    }
    Ok(())
}

fn is_unknown(module: &Module<'_>, index: usize) -> bool {
    match module.nodes.get(index) {
        Some(node) => match &node.form {
            TypeForm::Simple(simple) => !simple.is_compiled(),
            _ => false,
        },
        None => false,
    }
}
