//! Written by asn1_compile from the module KerberosV5Spec2: change the module instead.
//!
//! ApReq.

use crate::asn1::ap_req_contents::ApReqContents;
use der_asn1::{Application, Explicit};

/// The first message of a client to a server, with a ticket (RFC 4120, 5.5.1).
pub type ApReq<'a> = Application<Explicit<ApReqContents<'a>, 14>>;
