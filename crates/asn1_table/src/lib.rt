//! Compiles types of ASN.1 modules to a table of types. The crate `schema_types` describes the
//! binary form of the table.
//!
//! [`table_of`] makes the table of a text with one or more modules. It looks up the names that a
//! module imports in the other modules. The caller asks for types. Each of these types gets a node,
//! and so does each type of which they are made. A type may be defined by the name of another type,
//! in several steps. Then its node has the last of these names.
//!
//! # Open types
//!
//! ASN.1 does not say which type an `ANY` or the contents of a string have. Comments can say this,
//! each in a line of its own:
//!
//! | In front of | Line | What it says |
//! |---|---|---|
//! | a value that is an OBJECT IDENTIFIER | `Schema type: TYPE` | the OBJECT IDENTIFIER chooses this type in each `ANY` that is an open type without a name |
//! | a value that is an OBJECT IDENTIFIER | `Schema type: TYPE in NAME` | the OBJECT IDENTIFIER chooses this type in the open type with this name, and nowhere else |
//! | a component | `Schema opens: NAME` | the `ANY` of the component, or the contents of its string, is the open type with this name |
//! | a component | `Schema type: TYPE` | the component has this type, after its tags, in place of the written type |
//!
//! A TYPE is `MODULE.NAME`, or a name that the module defines or imports. A line is ignored if the
//! text does not have its TYPE.
//!
//! The first component in front of an open type that is an OBJECT IDENTIFIER chooses the type. If a
//! table constraint names another component (`{@name}`), that component and the information objects
//! of the constraint choose the type instead.
//!
//! # What a table does not have
//!
//! A table does not check constraints other than ranges and sizes. There is no warning about these.
//! Where the compiler cannot encode a DEFAULT value, the component is OPTIONAL in the table. There
//! is a warning about each of these values.
//!
//! It is proved that the code which makes a table is safe and ends. It is not proved that the
//! result is a table: this is tested at each call.
#![tactic(auto)]

mod choices;
mod compiled_table;
mod contents;
mod defaults;
mod directives;
mod fields;
mod heights;
mod identifiers;
mod integers;
mod keys;
mod library;
mod limits;
mod nodes;
mod objects;
mod octets;
mod opener;
mod properties;
mod reach;
mod roots;
mod rows;
mod table;
mod values;
mod wanted;
mod wrong;

pub use compiled_table::{CompiledTable, Root};
pub use directives::is_schema_line;
pub use identifiers::oid_octets;
pub use integers::integer_octets;
pub use table::table_of;
pub use wrong::Wrong;
