//! Messages and PDUs of SNMP (RFC 1157 and 3416), borrowed from the input. Each type is lawful: decoding
//! succeeds exactly if the octets are the encoding of a value. Nothing is allocated. The types are
//! compiled from `asn1/snmp.asn1`.
#![tactic(auto)]

pub mod asn1;

pub use asn1::{
    ApplicationSyntax, Counter32, Counter64, IpAddress, Message, MessageFields, ObjectName,
    ObjectSyntax, ObjectSyntaxAlternatives, Opaque, Pdu, PduFields, SimpleSyntax, TimeTicks,
    Unsigned32, VarBind, VarBindData, VarBindFields, VarBindList,
};
