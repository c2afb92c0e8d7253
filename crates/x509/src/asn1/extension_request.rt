//! Written by asn1_compile from the module X509: change the module instead.
//!
//! ExtensionRequest.

use crate::asn1::extensions::Extensions;

/// The extensions that a certificate should have (RFC 2985, 5.4.2): the value of an attribute of a
/// certification request.
pub type ExtensionRequest<'a> = Extensions<'a>;
