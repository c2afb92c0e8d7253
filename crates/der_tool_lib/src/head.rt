//! The command `head`.
ghost use Rattle.std.specs.Prelude.{◌≡◌, IfOk, IfErr, string_bytes};
ghost use Rattle.der.specs.Prelude.{head_of};
ghost use Rattle.der_tool_lib.specs.PrintedText as text;
ghost use Rattle.der_tool_lib.specs.Answer.{AnswersHead, IsHeaderRead, IsRefusedFor, status_of, text_of};

use crate::answer::{Answer, error_line};
use der::{EncodingRules, Error, Header, Reader, SliceReader, decode_header};
use std::alloc::{AllocError, Allocator};

/// The answer to the command `head`. It is the lines that describe the header at the start of
/// `octets`, or an error line if the header is not valid. Fails if an allocation fails.
pub fn answer_head<A: Allocator + Copy>(
    alloc: A,
    rules: EncodingRules,
    octets: &[u8],
) -> Result<Answer<A>, AllocError>
    ensures { IfOk result (λ a. AnswersHead rules octets.now (status_of a) (text_of a)) }
{
    match read_head(rules, octets) {
        Ok((header, rest)) => Ok(Answer::Printed(header_lines(alloc, &header, rest)?)),
        Err(error) => Ok(Answer::Refused(error_line(alloc, error)?)),
    }
}

/// Reads the header at the start of `octets`. Returns the header and the octets after it.
fn read_head(rules: EncodingRules, octets: &[u8]) -> Result<(Header, &[u8]), Error>
    ensures ok { IfOk result (λ p. IsHeaderRead rules octets.now (head_of p.0) p.1.now) }
    ensures err { IfErr result (IsRefusedFor rules octets.now) }
{
    let mut reader = SliceReader::new_with_encoding_rules(octets, rules)?;
    let header = decode_header(&mut reader)?;
    let rest = reader.remaining()?;
    Ok((header, rest))
}

/// The four lines that `head` prints. They show the tag, the constructed bit, the length, and
/// `rest`, which are the octets after the header. Fails if an allocation fails.
fn header_lines<A: Allocator + Copy>(
    alloc: A,
    header: &Header,
    rest: &[u8],
) -> Result<String<A>, AllocError>
    ensures { IfOk result (λ s. string_bytes s ≡ text.header_lines (head_of header.now) rest.now) }
{
    let tag = header.tag();
    let constructed = yes_or_no(header.is_constructed());
    let length = header.length();
    let eoc = indefinite_suffix(length.is_indefinite());
    let rest = octets_text(alloc, rest)?;
    format!(in alloc;
        "tag: {tag}\nconstructed: {constructed}\nlength: {length}{eoc}\nrest: {rest}\n"
    )
}

fn yes_or_no(answer: bool) -> &'static str
    ensures { result.now ≡ text.yes_or_no answer }
{
    if answer { "yes" } else { "no" }
}

/// The text that `head` prints directly after a length. It is ` indefinite` if the length was read
/// in the indefinite form, and otherwise empty.
fn indefinite_suffix(indefinite: bool) -> &'static str
    ensures { result.now ≡ text.indefinite_suffix indefinite }
{
    if indefinite { " indefinite" } else { "" }
}

/// The octets in lower-case hexadecimal. If there are no octets, a dash. Fails if an allocation
/// fails.
pub fn octets_text<A: Allocator>(alloc: A, octets: &[u8]) -> Result<String<A>, AllocError>
    ensures { IfOk result (λ s. string_bytes s ≡ text.octets_text octets.now) }
{
    if octets.is_empty() {
        String::from_str(alloc, "-")
    } else {
        hex::encode(alloc, octets)
    }
}
