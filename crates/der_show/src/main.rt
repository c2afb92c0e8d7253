//! A program that prints the contents of DER, BER and PEM files. If the kind of a file is known,
//! such as a certificate, the program prints the fields. For any other file, it prints the
//! elements.
#![tactic(auto)]

use der_show_lib::{Output, Sink, TERMINAL_WIDTH, run_show};
use std::env;
use std::io::IsTerminal;
use std::process::ExitCode;

// No clause can name the arguments that the system passes; the recorded run checks that they reach
// the program.
fn main(rt: HostRuntime) -> ExitCode {
    let mut out = Output::new(rt.alloc(), Sink::Output(rt.stdout()));
    if rt.stdout().is_terminal() {
        out.width = TERMINAL_WIDTH;
    }
    let errors = Output::new(rt.alloc(), Sink::Errors(rt.stderr()));
    let finished = run_show(&rt, env::args(&rt), out, errors);
    ExitCode::from(finished.status)
}
