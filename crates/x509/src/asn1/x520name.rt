//! Written by asn1_compile from the module X509: change the module instead.
//!
//! X520name.

use crate::asn1::directory_string::DirectoryString;

/// The text of an attribute of a name, such as a surname (RFC 5280, appendix A).
pub type X520name<'a> = DirectoryString<'a>;
