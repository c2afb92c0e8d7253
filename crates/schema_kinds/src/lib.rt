//! The types that the program `der_show` knows. The crate has a table of the types in the modules
//! in `asn1/`, and a list of kinds of values. To find the kind of a value, the crate reads the
//! value as one kind after the other.
#![tactic(auto)]

mod damaged;
mod digits;
mod find;
mod kind;
mod memory;
mod outline;
mod plausible;
mod secret;
mod table;

pub use digits::{TABLE_ROOM, put_table, table_octets};
pub use find::{find_kind, find_kind_in, is_encoding, read_as};
pub use kind::{KINDS, Kind};
pub use memory::Room;
pub use secret::{is_private_label, is_private_type, may_be_private_key};
pub use table::{
    ANY, CERTIFICATE, DSA_PRIVATE_KEY, EC_PRIVATE_KEY, RSA_PRIVATE_KEY, RSA_PUBLIC_KEY, TRUST,
};
