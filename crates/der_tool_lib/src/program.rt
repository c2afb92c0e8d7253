//! The program as a function of the words of its command line and an output.
ghost use Rattle.std.specs.Prelude.{◌≡◌, ◌⊎◌, true, Ok, IfOk, OnOk, IsOk};
ghost use Rattle.std.specs.Io.KnownBytes.{Appends};
ghost use Rattle.hex.specs.Hex.{decode_of};
ghost use Rattle.der_tool_lib.specs.ToolCommand.{texts, IsHex, SpellsOctets};
ghost use Rattle.der_tool_lib.specs.Answer.{Answers, Fulfils, WritesAnswer, status_of, text_of};

use crate::answer::Answer;
use crate::command::ToolCommand;
use crate::head::answer_head;
use crate::join::answer_join;
use crate::order::answer_order;
use crate::output::Output;
use crate::tlv::answer_tlv;
use hex::FromHexError;
use std::alloc::{AllocError, Allocator, Global};
use std::io;

/// Runs the command that `words` request, prints the answer to `out`, and returns the exit status:
///
/// - 0 if the command succeeded;
/// - 1 if the octets are not accepted, or if an allocation failed;
/// - 2 if the words are not a command; the usage is printed;
/// - always 1 if the output failed. What `out` has received is then unspecified.
pub fn run<W: Output>(alloc: Global, words: &[String], out: &mut W) -> u8
    ensures answers { (result ≡ 1)
        ⊎ WritesAnswer (texts words.now) result (W.contents out.old) (W.contents out.new) }
    ensures exact { W.reliable ≡ true
        → WritesAnswer (texts words.now) result (W.contents out.old) (W.contents out.new) }
{
    respond(alloc, alloc, words, out).unwrap_or(1)
}

/// Runs the command that `words` request, prints the answer to `out`, and returns the exit status,
/// which is 0, 1 or 2 as for [`run`]. Fails only if the output fails. All allocations are made
/// before `out` is called for the first time.
///
/// Octets and lines are allocated with `alloc`, so that a test can make these allocations fail.
/// Segments are joined in memory of `global`, because the library can join them only there.
pub fn respond<A: Allocator + Copy, W: Output>(
    global: Global,
    alloc: A,
    words: &[String],
    out: &mut W,
) -> io::Result<u8>
    ensures answers { IfOk result (λ status.
        WritesAnswer (texts words.now) status (W.contents out.old) (W.contents out.new)) }
    ensures succeeds { W.reliable ≡ true → IsOk result }
{
    say(&answer(global, alloc, words), out)
}

/// Prints the text of `answer` to `out`, and returns the exit status of `answer`. Fails if the
/// output fails.
pub fn say<A: Allocator, W: Output>(answer: &Answer<A>, out: &mut W) -> io::Result<u8>
    ensures status { IfOk result (λ status. status ≡ status_of answer.now) }
    ensures written { OnOk result
        (Appends (W.contents out.old) (W.contents out.new) (text_of answer.now)) }
    ensures succeeds { W.reliable ≡ true → IsOk result }
{
    out.put(answer.text())?;
    Ok(answer.status())
}

/// The answer to `words`. It is the result of the command that `words` request, or the usage if
/// `words` are not a command. If an allocation with `alloc` fails, the answer is
/// [`Answer::OutOfMemory`].
fn answer<A: Allocator + Copy>(global: Global, alloc: A, words: &[String]) -> Answer<A>
    ensures { Answers (texts words.now) (status_of result) (text_of result) }
{
    match ToolCommand::parse(words) {
        Some(command) => fulfil(global, alloc, command).unwrap_or(Answer::OutOfMemory),
        None => Answer::Usage,
    }
}

/// The answer to `command`. Each text in `command` must consist of an even number of hexadecimal
/// digits. Fails only if an allocation with `alloc` fails.
fn fulfil<A: Allocator + Copy>(
    global: Global,
    alloc: A,
    command: ToolCommand<'_>,
) -> Result<Answer<A>, AllocError>
    requires { SpellsOctets command }
    ensures { IfOk result (λ a. Fulfils command.entry (status_of a) (text_of a)) }
{
    match command {
        ToolCommand::Head { rules, hex } => answer_head(alloc, rules, &octets_of(alloc, hex)?),
        ToolCommand::Tlv { rules, hex } => answer_tlv(alloc, rules, &octets_of(alloc, hex)?),
        ToolCommand::Order { first, second } => {
            let first = octets_of(alloc, first)?;
            let second = octets_of(alloc, second)?;
            answer_order(alloc, &first, &second)
        }
        ToolCommand::Join { hex } => answer_join(global, alloc, &octets_of(alloc, hex)?),
    }
}

/// The octets that the text `hex` spells. `hex` must consist of an even number of hexadecimal
/// digits. Fails only if an allocation fails.
fn octets_of<A: Allocator>(alloc: A, hex: &str) -> Result<Vec<u8, A>, AllocError>
    requires { IsHex hex.now }
    ensures { IfOk result (λ octets. decode_of hex.now ≡ Ok octets.items) }
{
    match hex::decode(alloc, hex) {
        Ok(octets) => Ok(octets),
        Err(error) if error == FromHexError::OutOfMemory => Err(AllocError),
        Err(_) => unreachable!(),
    }
}
