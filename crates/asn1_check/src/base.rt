//! The types for which references and tagged types stand.

use crate::checks::find_type;
use crate::module::Module;
use asn1_syntax::TypeForm;

/// The form of the type with this index. For a reference (the name of a type) or a tagged type, it
/// is the form of the type behind it. `None` if that name is not defined, or if the type is only a
/// reference to itself.
pub fn base_form<'m, 'a>(module: &'m Module<'a>, index: usize) -> Option<&'m TypeForm<'a>> {
    let mut index = index;
    for _ in module.nodes.iter() {
        let Some(node) = module.nodes.get(index) else {
            return None;
        };
        match &node.form {
            TypeForm::Tagged(_, of) => index = *of,
            TypeForm::Reference => match find_type(module, node.item.text) {
                Some(of) => index = of,
                None => return external_form(module, node.item.text),
            },
            form => return Some(form),
        }
    }
    None
}

/// The index of the type that a reference (the name of a type) stands for. References to other
/// references are followed, tags are not. If the type is compiled in another crate, the result is
/// the index of the last reference. If the type with this index is no reference, the result is
/// `index`.
pub fn base_of(module: &Module<'_>, index: usize) -> usize {
    let mut index = index;
    for _ in module.nodes.iter() {
        let Some(node) = module.nodes.get(index) else {
            return index;
        };
        match &node.form {
            TypeForm::Reference => match find_type(module, node.item.text) {
                Some(of) => index = of,
                None => return index,
            },
            _ => return index,
        }
    }
    index
}

fn external_form<'m, 'a>(module: &'m Module<'a>, name: &str) -> Option<&'m TypeForm<'a>> {
    match module.imported.find(name) {
        Some(of) => Some(&of.form),
        None => None,
    }
}
