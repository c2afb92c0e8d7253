//! BOOLEANs, INTEGERs, ENUMERATEDs and REALs.

pub(crate) mod boolean;
pub(crate) mod enumerated;
pub(crate) mod enumeration;
pub(crate) mod enumeration_item;
pub(crate) mod in_range;
pub(crate) mod integer;
pub(crate) mod integer_number;
pub(crate) mod integer_octets;
pub(crate) mod number_of;
pub(crate) mod open_enumerated;
pub(crate) mod real;
