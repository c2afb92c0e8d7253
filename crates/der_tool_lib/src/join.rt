//! The command `join`.
ghost use Rattle.std.specs.Prelude.{◌≡◌, IfOk, IfErr, string_bytes};
ghost use Rattle.der.specs.JoinedOctets.{joined_octets};
ghost use Rattle.der_tool_lib.specs.PrintedText as text;
ghost use Rattle.der_tool_lib.specs.Answer.{AnswersJoin, IsJoined, NotJoined, status_of, text_of};

use crate::answer::{Answer, error_line};
use crate::head::octets_text;
use der::example::JoinedOctets;
use der::{DecodeBytes, Error};
use std::alloc::{AllocError, Allocator, Global};

/// The answer to the command `join`. It is a line with the contents of the OCTET STRING in
/// `octets`, with all segments joined (X.690 8.7.3). It is an error line if `octets` are not
/// exactly one OCTET STRING under BER.
///
/// The segments are joined in memory that is allocated with `global`. If this allocation fails, the
/// answer is an error line. The line is allocated with `alloc`. If that allocation fails, the
/// function fails.
pub fn answer_join<A: Allocator + Copy>(
    global: Global,
    alloc: A,
    octets: &[u8],
) -> Result<Answer<A>, AllocError>
    ensures { IfOk result (λ a. AnswersJoin octets.now (status_of a) (text_of a)) }
{
    match read_joined(global, octets) {
        Ok(joined) => Ok(Answer::Printed(octets_line(alloc, joined.octets.as_slice())?)),
        Err(error) => Ok(Answer::Refused(error_line(alloc, error)?)),
    }
}

/// Reads `octets` as exactly one OCTET STRING under BER. Returns its contents, with all segments
/// joined.
fn read_joined(global: Global, octets: &[u8]) -> Result<JoinedOctets, Error>
    ensures ok { IfOk result (λ j. IsJoined octets.now (joined_octets j)) }
    ensures err { IfErr result (NotJoined octets.now) }
{
    JoinedOctets::from_ber(global, octets)
}

/// A line with the octets in lower-case hexadecimal. If there are no octets, a line with a dash.
/// Fails if an allocation fails.
fn octets_line<A: Allocator + Copy>(alloc: A, octets: &[u8]) -> Result<String<A>, AllocError>
    ensures { IfOk result (λ s. string_bytes s ≡ text.octets_line octets.now) }
{
    let octets = octets_text(alloc, octets)?;
    format!(in alloc; "{octets}\n")
}
