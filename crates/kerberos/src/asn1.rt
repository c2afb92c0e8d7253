//! Written by asn1_compile from the module KerberosV5Spec2: change the module instead.
//!
//! The types of the module.

mod ap_options;
mod ap_req;
mod ap_req_contents;
mod encrypted_data;
mod int32;
mod kerberos_flags;
mod kerberos_string;
mod principal_name;
mod realm;
mod ticket;
mod ticket_contents;
mod u_int32;

pub use ap_options::ApOptions;
pub use ap_req::ApReq;
pub use ap_req_contents::{ApReqContents, ApReqContentsFields};
pub use encrypted_data::{EncryptedData, EncryptedDataFields};
pub use int32::Int32;
pub use kerberos_flags::KerberosFlags;
pub use kerberos_string::KerberosString;
pub use principal_name::{PrincipalName, PrincipalNameFields};
pub use realm::Realm;
pub use ticket::Ticket;
pub use ticket_contents::{TicketContents, TicketContentsFields};
pub use u_int32::UInt32;
