//! Written by asn1_compile from the module SNMPv2-PDU: change the module instead.
//!
//! The types of the module.

mod application_syntax;
mod application_syntax_part1;
mod application_syntax_part2;
mod application_syntax_part3;
mod counter32;
mod counter64;
mod ip_address;
mod message;
mod object_name;
mod object_syntax;
mod opaque;
mod pdu;
mod simple_syntax;
mod simple_syntax_part1;
mod simple_syntax_part2;
mod time_ticks;
mod unsigned32;
pub mod values;
mod var_bind;
mod var_bind_data;
mod var_bind_data_part1;
mod var_bind_data_part2;
mod var_bind_data_part3;
mod var_bind_list;

pub use application_syntax::ApplicationSyntax;
pub use counter32::Counter32;
pub use counter64::Counter64;
pub use ip_address::IpAddress;
pub use message::{Message, MessageFields};
pub use object_name::ObjectName;
pub use object_syntax::{ObjectSyntax, ObjectSyntaxAlternatives};
pub use opaque::Opaque;
pub use pdu::{Pdu, PduFields};
pub use simple_syntax::SimpleSyntax;
pub use time_ticks::TimeTicks;
pub use unsigned32::Unsigned32;
pub use var_bind::{VarBind, VarBindFields};
pub use var_bind_data::VarBindData;
pub use var_bind_list::VarBindList;
