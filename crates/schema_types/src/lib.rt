//! Types of ASN.1 as data: a table of types in a binary form. A table is checked before it is used,
//! and is read without copying and without allocation.
//!
//! [`Schema::new`] makes a [`Schema`] of octets. It accepts exactly the well-formed tables, and
//! returns a [`Fault`] with an offset for all other octets.
//!
//! Each type is a [`Node`], and nodes refer to each other by index, so a type may contain itself. A
//! node has a kind ([`NodeKind`]), a tag, limits and parts. The limits are a range of rows
//! ([`Limit`]). The parts are a range of rows too: fields ([`Field`]), names ([`Name`]) or the
//! types that an open type may be ([`OpenType`]).
//!
//! # The form
//!
//! Each number has four octets, the most significant octet first. The header has 32 octets: `YSCH`,
//! the version 1, and six counts. These are the numbers of nodes, fields, limits, names, types of
//! open types and octets of the pool. The sections follow in this order:
//!
//! | Row | Octets | Columns |
//! |---|---|---|
//! | node | 40 | an octet each: kind, class in bits 8 and 7, whether extensible, whether there is an inner node; number of the tag, name, inner node, parts (8 octets), limits (8 octets), chooser |
//! | field | 28 | presence, extension addition, name, node, default |
//! | limit | 20 | kind, lowest and highest number (8 octets each, two's complement) |
//! | name | 16 | number (8 octets, two's complement), name |
//! | type of an open type | 12 | OBJECT IDENTIFIER, node |
//!
//! The pool comes last. Each name, DEFAULT value and OBJECT IDENTIFIER is a range of its octets. A
//! range of rows or octets is a start and a count.
//!
//! What the chooser of a node means depends on its kind:
//!
//! - For an open type, it is the index in the table of the field whose value chooses the type.
//! - For a SEQUENCE or a SET with an extension marker, it is the number of fields before the
//!   insertion point. These are the fields before the marker and the extension additions.
//! - For any other node, it is 0.
//!
//! A CHOICE has at least one alternative. A CHOICE that is an alternative of another CHOICE comes
//! before that one in the table. So no CHOICE is an alternative of itself, at any depth.
//!
//! # Tags
//!
//! Two fields of a type have distinct tags if one of them may be absent where the other follows:
//!
//! - any two alternatives of a CHOICE (X.680 29.3);
//! - any two components of a SET (27.3);
//! - in a SEQUENCE, a component that is OPTIONAL, has a DEFAULT or is an extension addition, and
//!   each later component, up to and with the first required component of the extension root (25.6,
//!   25.7).
//!
//! ANY and an open type count as beginning with every tag. So a tag determines at most one type
//! that a value may have, and [`Schema::select`] returns the node of this type.
//!
//! These statements are proved:
//!
//! - Octets are accepted if and only if they are a table.
//! - Each row is found by its index.
//! - All nodes, rows and octets to which a row refers exist.
//! - [`Schema::select`] finds what a tag selects.
#![tactic(auto)]

mod counts;
mod distinct;
mod fault;
mod fault_kind;
mod field;
mod find;
mod header;
mod laws;
mod limit;
mod limit_kind;
mod name;
mod nesting;
mod node;
mod node_kind;
mod numbers;
mod open_type;
mod order;
mod pool;
mod presence;
mod rows;
mod schema;
mod sections;
mod select;
mod selected;
mod shared;
mod sought;
mod span;

pub use counts::Counts;
pub use fault::Fault;
pub use fault_kind::FaultKind;
pub use field::Field;
pub use limit::Limit;
pub use limit_kind::LimitKind;
pub use name::Name;
pub use node::Node;
pub use node_kind::NodeKind;
pub use open_type::OpenType;
pub use presence::Presence;
pub use schema::Schema;
pub use selected::Selected;
pub use span::Span;
