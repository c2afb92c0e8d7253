//! Modules that other crates contain.

use crate::constants::Constants;
use crate::external_types::ExternalTypes;
use asn1_syntax::NameIndex;

/// A module that is compiled in another crate, with what other modules may import from it.
#[derive(Drop)]
pub struct External<'a> {
    /// The name of the module.
    pub module: &'a str,
    /// The named types of the module.
    pub types: ExternalTypes<'a>,
    /// The named values of the module.
    pub values: Constants<'a>,
    /// The names of the assignments of the module that are not compiled.
    pub left_out: NameIndex<'a>,
}
