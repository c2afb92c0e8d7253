//! Written by asn1_compile from the module KerberosV5Spec2: change the module instead.
//!
//! Ticket.

use crate::asn1::ticket_contents::TicketContents;
use der_asn1::{Application, Explicit};

/// A ticket: a client shows it to a server as proof of its identity (RFC 4120, 5.3).
pub type Ticket<'a> = Application<Explicit<TicketContents<'a>, 1>>;
