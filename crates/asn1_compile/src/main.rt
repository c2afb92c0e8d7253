//! The program that compiles an ASN.1 module to Rust types, which decode and encode its values, and
//! writes them to the folder of a crate. With `--schema` it writes a table of types instead.
#![tactic(auto)]

use asn1_output::run_compile;
use std::env;
use std::process::ExitCode;

// No clause can name the arguments that the system passes; the recorded run checks that they reach
// the program.
fn main(rt: HostRuntime) -> anyhow::Result<ExitCode> {
    let status = run_compile(&rt, env::args(&rt), &mut rt.stdout(), &mut rt.stderr())?;
    Ok(ExitCode::from(status))
}
