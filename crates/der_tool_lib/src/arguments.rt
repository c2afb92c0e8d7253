//! The program as a function of its arguments and an output.
ghost use Rattle.std.specs.Prelude.{◌≡◌, ◌⊎◌, true, IfOk};
ghost use Rattle.der_tool_lib.specs.ToolCommand.{texts};
ghost use Rattle.der_tool_lib.specs.Arguments.{AreWordsOf, WritesToArguments};

use crate::answer::Answer;
use crate::output::Output;
use crate::program::{run, say};
use std::alloc::{AllocError, Global};
use std::env::Args;
use std::io;

/// Runs the program on the arguments `given`, prints the answer to `out`, and returns the exit
/// status. The first argument is the name of the program; the other arguments are the words of a
/// command. The exit status is:
///
/// - 0 if the command succeeded;
/// - 1 if the octets are not accepted, or if an allocation failed;
/// - 2 if the words are not a command;
/// - always 1 if the output failed. What `out` has received is then unspecified.
///
/// `given` may be an error:
///
/// - If it is an error of the kind `InvalidData`, an argument is not text. The usage is printed, as
///   for words that are not a command.
/// - If it is any other error, an allocation failed. The line `error: out of memory` is printed.
pub fn run_tool<W: Output>(alloc: Global, given: io::Result<Args>, out: &mut W) -> u8
    ensures answers { (result ≡ 1)
        ⊎ WritesToArguments given result (W.contents out.old) (W.contents out.new) }
    ensures exact { W.reliable ≡ true
        → WritesToArguments given result (W.contents out.old) (W.contents out.new) }
{
    match given {
        Ok(arguments) => match words_of(alloc, arguments) {
            Ok(words) => run(alloc, &words, out),
            Err(_) => say(&Answer::<Global>::OutOfMemory, out).unwrap_or(1),
        },
        // An argument that is not UTF-8 text is not a word of a command.
        Err(error) if error.kind() == io::ErrorKind::InvalidData => {
            say(&Answer::<Global>::Usage, out).unwrap_or(1)
        }
        Err(_) => say(&Answer::<Global>::OutOfMemory, out).unwrap_or(1),
    }
}

/// The arguments after the first one, which is the name of the program. Fails if an allocation
/// fails.
fn words_of(alloc: Global, mut arguments: Args) -> Result<Vec<String>, AllocError>
    ensures { IfOk result (λ words. AreWordsOf arguments (texts words.items)) }
{
    let _name = arguments.next();
    arguments.collect(alloc)
}
