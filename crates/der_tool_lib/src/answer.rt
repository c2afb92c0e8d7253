//! The answers of the program: what it prints, and the status with which it exits.
ghost use Rattle.std.specs.Prelude.{◌≡◌, IfOk, string_bytes};
ghost use Rattle.der_tool_lib.specs.Answer.{PrintsError};

use der::Error;
use std::alloc::{AllocError, Allocator};

/// The result of a command line: what the program prints, and how it ends.
#[derive(Drop)]
pub enum Answer<A: Allocator> {
    /// The command succeeded. The field is the text to print:
    ///
    /// - for `head`, the lines that describe a header;
    /// - for `tlv`, a line with an element;
    /// - for `order`, a line with the order of two elements;
    /// - for `join`, a line with the joined octets.
    Printed(String<A>),
    /// The octets are not accepted. The field is the line to print, which states the reason. The
    /// command `join` also has this answer if it cannot allocate memory for the joined segments.
    Refused(String<A>),
    /// An allocation failed. The program prints the line `error: out of memory`. If `join` cannot
    /// allocate memory for the joined segments, the answer is `Refused` instead.
    OutOfMemory,
    /// The words of the command line are not a command. The program prints its usage.
    Usage,
}

impl<A: Allocator> Answer<A> {
    ghost use Rattle.der_tool_lib.specs.Answer.{status_of, text_of};

    /// The exit status of the program:
    ///
    /// - 0 if the command succeeded;
    /// - 1 if the octets are not accepted or an allocation failed;
    /// - 2 if the words of the command line are not a command.
    pub fn status(&self) -> u8
        ensures { result ≡ status_of self.now }
    {
        match self {
            Answer::Printed(_) => 0,
            Answer::Refused(_) | Answer::OutOfMemory => 1,
            Answer::Usage => 2,
        }
    }

    /// The text that the program prints for this answer.
    pub fn text(&self) -> &str
        ensures { result.now ≡ text_of self.now }
    {
        match self {
            Answer::Printed(lines) => lines,
            Answer::Refused(line) => line,
            Answer::OutOfMemory => "error: out of memory\n",
            Answer::Usage => {
                "usage: der_tool head [--ber] HEX | tlv [--ber] HEX | order HEX HEX | join HEX\n"
            }
        }
    }
}

/// The line that the program prints for `error`: `error: `, the text of the error, and a line feed.
/// Fails if an allocation fails.
pub fn error_line<A: Allocator>(alloc: A, error: Error) -> Result<String<A>, AllocError>
    ensures { IfOk result (λ s. PrintsError error (string_bytes s)) }
{
    format!(in alloc; "error: {error}\n")
}
