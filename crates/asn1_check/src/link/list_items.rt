//! Item types of SEQUENCE OF and SET OF.

use crate::base::base_of;
use crate::module::Module;
use asn1_syntax::TypeForm;
use std::alloc::{AllocError, Global};

/// Whether a type is the item type of a SEQUENCE OF or SET OF, directly or by name, for each type.
/// The place in the list is the index of the type.
pub fn list_items_of(alloc: Global, module: &Module<'_>) -> Result<Vec<bool>, AllocError> {
    let mut marks = vec![in alloc; false; module.nodes.len()]?;
    for node in module.nodes.iter() {
        if let TypeForm::SequenceOf(of) | TypeForm::SetOf(of) = &node.form
            && let Some(mark) = marks.get_mut(base_of(module, *of))
        {
            *mark = true;
        }
    }
    Ok(marks)
}
