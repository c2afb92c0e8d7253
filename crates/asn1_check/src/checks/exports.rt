//! Names that are exported.

use super::names::{find_type, has_value, is_imported};
use crate::module::Module;
use asn1_syntax::Refusal;

/// Checks that the module defines or imports each name that it exports.
pub fn check_exports<'a>(module: &Module<'a>) -> Result<(), Refusal<'a>> {
    for name in module.exports.iter() {
        let is_there = find_type(module, name.text).is_some()
            || has_value(module, name.text)
            || is_imported(module, name.text);
        if !is_there {
            return Err(Refusal::of(*name, "a name that this module defines or imports"));
        }
    }
    Ok(())
}
