//! The command `order`.
ghost use Rattle.std.specs.Prelude.{◌≡◌, IfOk, IfErr};
ghost use Rattle.der.specs.Prelude.{byte_order};
ghost use Rattle.der_tool_lib.specs.PrintedText as text;
ghost use Rattle.der_tool_lib.specs.Answer.{AnswersOrder, IsWholeElement, NoPair, status_of, text_of};

use crate::answer::{Answer, error_line};
use crate::element::Element;
use der::{DerOrd, Error};
use std::alloc::{AllocError, Allocator};
use std::cmp::Ordering;

/// The answer to the command `order`. It is a line with the order of the elements in `first` and
/// `second`, or an error line if `first` or `second` is not exactly one element under DER. Fails if
/// an allocation fails.
pub fn answer_order<A: Allocator + Copy>(
    alloc: A,
    first: &[u8],
    second: &[u8],
) -> Result<Answer<A>, AllocError>
    ensures { IfOk result (λ a. AnswersOrder first.now second.now (status_of a) (text_of a)) }
{
    match compare(first, second) {
        Ok(ordering) => Ok(Answer::Printed(String::from_str(alloc, order_line(ordering))?)),
        Err(error) => Ok(Answer::Refused(error_line(alloc, error)?)),
    }
}

/// Compares the encodings of two elements (X.690 11.6). Each of `first` and `second` must be
/// exactly one element under DER. `first` is read before `second`: if both are not valid, the error
/// is the error of reading `first`.
fn compare(first: &[u8], second: &[u8]) -> Result<Ordering, Error>
    ensures whole { IfOk result (λ _. IsWholeElement first.now × IsWholeElement second.now) }
    ensures ok { IfOk result (λ o. o ≡ byte_order first.now second.now) }
    ensures err { IfErr result (NoPair first.now second.now) }
{
    let first = Element::from_octets(first)?;
    let second = Element::from_octets(second)?;
    first.der_cmp(&second)
}

/// The line that `order` prints: `less`, `equal` or `greater`. `ordering` is the result of
/// comparing the first element with the second.
fn order_line(ordering: Ordering) -> &'static str
    ensures { result.now ≡ text.order_line ordering }
{
    match ordering {
        Ordering::Less => "less\n",
        Ordering::Equal => "equal\n",
        Ordering::Greater => "greater\n",
    }
}
