//! Tickets and requests of Kerberos (RFC 4120), borrowed from the input. Each type is lawful:
//! decoding succeeds if and only if the octets are the encoding of a value. Nothing is allocated.
//! The types are compiled from `asn1/kerberos.asn1`.
#![tactic(auto)]

pub mod asn1;

pub use asn1::{
    ApOptions, ApReq, ApReqContents, ApReqContentsFields, EncryptedData, EncryptedDataFields,
    Int32, KerberosFlags, KerberosString, PrincipalName, PrincipalNameFields, Realm, Ticket,
    TicketContents, TicketContentsFields, UInt32,
};
