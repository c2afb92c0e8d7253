//! What other modules may import from a compiled module.

use super::abilities::has_item;
use super::naming::text_at;
use super::types::named_type;
use super::written::Written;
use asn1_check::{
    Checks, Constants, External, ExternalType, ExternalTypes, Module, RustType, bare_form,
    base_form, copy_at, has_no_tag, has_value, range_at,
};
use asn1_syntax::{LeftOut, NameIndex, TypeAssignment, TypeForm, is_word_octet};
use std::alloc::{AllocError, Global};

/// Returns what other modules may import from a module that is compiled in the crate `krate`.
/// `left_out` are the assignments of the module that are not compiled.
pub fn external_of<'a>(
    alloc: Global,
    written: &Written<'_, 'a>,
    checks: &Checks,
    left_out: &Vec<LeftOut<'a>>,
    krate: &str,
) -> Result<External<'a>, AllocError> {
    let module = written.module;
    let mut names = NameIndex::new(alloc);
    for of in left_out.iter() {
        names.add(of.name.text, 0)?;
    }
    Ok(External {
        module: module.name.text,
        types: types_of(alloc, written, checks, krate)?,
        values: values_of(alloc, module)?,
        left_out: names,
    })
}

fn types_of<'a>(
    alloc: Global,
    written: &Written<'_, 'a>,
    checks: &Checks,
    krate: &str,
) -> Result<ExternalTypes<'a>, AllocError> {
    let mut types = ExternalTypes::new(alloc);
    let own = index_of(alloc, written.names)?;
    for assigned in written.module.types.iter() {
        types.push(external_type(alloc, written, checks, krate, &own, assigned)?)?;
    }
    Ok(types)
}

// An index of the names of types.
fn index_of<'n>(alloc: Global, names: &'n Vec<String>) -> Result<NameIndex<'n>, AllocError> {
    let mut index = NameIndex::new(alloc);
    for (number, name) in names.iter().enumerate() {
        index.add(name.as_str(), number)?;
    }
    Ok(index)
}

fn values_of<'a>(alloc: Global, module: &Module<'a>) -> Result<Constants<'a>, AllocError> {
    let mut values = Constants::new(alloc);
    for named in module.constants.list.iter() {
        if has_value(module, named.name) {
            values.push(named.copy(alloc)?)?;
        }
    }
    Ok(values)
}

fn external_type<'a>(
    alloc: Global,
    written: &Written<'_, 'a>,
    checks: &Checks,
    krate: &str,
    own: &NameIndex<'_>,
    assigned: &TypeAssignment<'a>,
) -> Result<ExternalType<'a>, AllocError> {
    let module = written.module;
    let index = assigned.of;
    Ok(ExternalType {
        krate: String::from_str(alloc, krate)?,
        name: assigned.name.text,
        rust_name: String::from_str(alloc, text_at(written.names, index))?,
        of: qualified_type(alloc, written, krate, own, index)?,
        tags: copy_at(alloc, &checks.tags, index)?,
        has_no_tag: has_no_tag(module, index),
        is_item: has_item(module, index),
        range: range_at(module, index),
        form: form_at(alloc, module, index)?,
    })
}

// How the type with this index is made, without the types that it is made of.
fn form_at<'a>(
    alloc: Global,
    module: &Module<'a>,
    index: usize,
) -> Result<TypeForm<'a>, AllocError> {
    match base_form(module, index) {
        Some(form) => bare_form(alloc, form),
        None => Ok(TypeForm::Reference),
    }
}

// The type of Rust with this index, as another crate names it.
fn qualified_type(
    alloc: Global,
    written: &Written<'_, '_>,
    krate: &str,
    own: &NameIndex<'_>,
    index: usize,
) -> Result<RustType, AllocError> {
    let Written {
        module,
        names,
        types,
        ..
    } = *written;
    let mut of = named_type(alloc, module, types, names, index)?;
    let arms = qualified(alloc, own, krate, of.arms.as_str())?;
    of.arms = arms;
    Ok(of)
}

// The text with the name of the crate in front of each name of that crate.
fn qualified(
    alloc: Global,
    own: &NameIndex<'_>,
    krate: &str,
    text: &str,
) -> Result<String, AllocError> {
    let octets = text.as_bytes();
    let mut whole = String::new(alloc);
    let mut start = 0usize;
    for at in 0..octets.len() {
        if is_word_octet(octets[at]) {
            continue;
        }
        push_word(&mut whole, own, krate, text.get(start..at).unwrap_or(""))?;
        whole.push(char::from(octets[at]))?;
        start = at + 1;
    }
    push_word(&mut whole, own, krate, text.get(start..).unwrap_or(""))?;
    Ok(whole)
}

// Adds a word, with the name of the crate in front of a name of that crate.
fn push_word(
    text: &mut String,
    own: &NameIndex<'_>,
    krate: &str,
    word: &str,
) -> Result<(), AllocError> {
    let is_qualified = text.as_str().ends_with("::");
    let name_of = word.strip_suffix("Tagged").unwrap_or(word);
    if !name_of.is_empty() && own.has(name_of) && !is_qualified {
        text.push_str(krate)?;
        text.push_str("::")?;
    }
    text.push_str(word)
}
