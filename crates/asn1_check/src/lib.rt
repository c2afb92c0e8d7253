//! Checks modules of ASN.1. The crate finds what the names in a module stand for, and checks the
//! types and the values of the module.
#![tactic(auto)]

mod base;
mod bounds;
mod checked;
mod checks;
mod constant;
mod constants;
mod external;
mod external_type;
mod external_types;
mod link;
mod module;
mod rust_type;
mod selection;
mod tag_set;

pub use base::{base_form, base_of};
pub use bounds::{contained, range_at};
pub use checked::{Selected, checked_module, selected_module};
pub use checks::{
    Checks, are_numbered, automatic_number, check_module, check_sorted, component_tags, copy_at,
    find_type, has_no_tag, has_value, recursive_name,
};
pub use constant::{Constant, NamedConstant};
pub use constants::Constants;
pub use external::External;
pub use external_type::{ExternalType, bare_form};
pub use external_types::ExternalTypes;
pub use link::link_module;
pub use module::Module;
pub use rust_type::{RustKind, RustType};
pub use selection::{Selection, not_there, select, select_first};
pub use tag_set::TagSet;
