//! A program that reads octets in hexadecimal. The first word after the name of the program is the
//! name of a command:
//!
//! - `head` prints lines that describe the header at the start of DER or BER octets;
//! - `tlv` prints all octets of the element at the start of DER or BER octets;
//! - `order` prints which of two DER elements comes first in the order of a SET OF;
//! - `join` prints the contents of a BER OCTET STRING, with its segments joined.
#![tactic(auto)]

use der_tool_lib::run_tool;
use std::env;
use std::process::ExitCode;

// No clause can name the arguments that the system passes; the recorded run checks that they reach
// the program.
fn main(rt: HostRuntime) -> ExitCode {
    ExitCode::from(run_tool(rt.alloc(), env::args(&rt), &mut rt.stdout()))
}
