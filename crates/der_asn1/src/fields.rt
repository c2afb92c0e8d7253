//! Components of SEQUENCEs: tagged components, OPTIONAL components, CHOICEs, and unknown elements;
//! and SETs with components.
//! A type with an extension mark keeps unknown elements, because a later version of the type may
//! define them.

pub(crate) mod additions;
pub(crate) mod as_set;
pub(crate) mod as_set_printed;
pub(crate) mod choice;
pub(crate) mod described;
pub(crate) mod described_choice;
pub(crate) mod either;
pub(crate) mod explicit;
pub(crate) mod explicit_any;
pub(crate) mod implicit;
pub(crate) mod in_class;
pub(crate) mod known_tags;
pub(crate) mod optional;
pub(crate) mod tagged_field;
pub(crate) mod unknown_element;
pub(crate) mod unknown_walk;
