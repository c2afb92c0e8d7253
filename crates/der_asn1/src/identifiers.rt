//! OBJECT IDENTIFIERs and their arcs, and RELATIVE-OIDs.

pub(crate) mod arcs;
pub(crate) mod dotted;
pub(crate) mod object_identifier;
pub(crate) mod relative_oid;
pub(crate) mod subidentifier;
