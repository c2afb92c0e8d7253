//! The command `tlv`.
ghost use Rattle.std.specs.Prelude.{◌≡◌, IfOk, IfErr, string_bytes};
ghost use Rattle.der_tool_lib.specs.PrintedText as text;
ghost use Rattle.der_tool_lib.specs.Answer.{AnswersTlv, IsFirstElement, NoElement, status_of, text_of};

use crate::answer::{Answer, error_line};
use der::{EncodingRules, Error, ReaderExt, SliceReader};
use std::alloc::{AllocError, Allocator};

/// The answer to the command `tlv`. It is a line with all octets of the element at the start of
/// `octets`, or an error line if there is no valid element. Fails if an allocation fails.
pub fn answer_tlv<A: Allocator + Copy>(
    alloc: A,
    rules: EncodingRules,
    octets: &[u8],
) -> Result<Answer<A>, AllocError>
    ensures { IfOk result (λ a. AnswersTlv rules octets.now (status_of a) (text_of a)) }
{
    match read_element(rules, octets) {
        Ok(element) => Ok(Answer::Printed(element_line(alloc, element)?)),
        Err(error) => Ok(Answer::Refused(error_line(alloc, error)?)),
    }
}

/// Reads the element at the start of `octets`. Returns all octets of the element: the header, the
/// contents and, after an indefinite length, the two end-of-contents octets.
fn read_element(rules: EncodingRules, octets: &[u8]) -> Result<&[u8], Error>
    ensures ok { IfOk result (λ e. IsFirstElement rules octets.now e.now) }
    ensures err { IfErr result (NoElement rules octets.now) }
{
    let mut reader = SliceReader::new_with_encoding_rules(octets, rules)?;
    reader.tlv_bytes()
}

/// A line with the octets of an element in lower-case hexadecimal. Fails if an allocation fails.
fn element_line<A: Allocator + Copy>(alloc: A, element: &[u8]) -> Result<String<A>, AllocError>
    ensures { IfOk result (λ s. string_bytes s ≡ text.element_line element.now) }
{
    let digits = hex::encode(alloc, element)?;
    format!(in alloc; "{digits}\n")
}
