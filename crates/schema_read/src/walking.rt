//! The steps of reading octets by a table of types, for other crates that read octets by such a
//! table:
//!
//! - the rows of the table;
//! - the header at the front of the octets;
//! - the field or the type that a tag selects;
//! - the OBJECT IDENTIFIER that chooses an open type.

pub use crate::chosen::chosen;
pub use crate::front::front_header;
pub use crate::known::Known;
pub use crate::role::LEVELS;
pub use crate::select::{find_field, find_next};
pub use crate::shape::Shape;
pub use crate::texts::is_joined;
pub use crate::types::{default_of, field_of, node_of, select};
