//! Where contents of indefinite length end.
ghost use Rattle.std.specs.Prelude.{◌≡◌, ◌≢◌, ◌+◌, ◌^◌, ◌≤◌, ℕ, List, ◌++◌, length, IfOk, IfErr};
ghost use Rattle.ber.specs.Body.{IsBody, IsBodyFault, AreBodies, IsStep, IsStepFault};

use crate::body_fault::BodyFault;
use crate::element::{is_end_of_contents, read_element};
use crate::element_fault::ElementFault;

/// Returns where contents of indefinite length end: the number of octets from the start of `octets`
/// to the end of the end-of-contents octets that close them (X.690 8.1.3.6). `octets` must begin
/// directly after the header that has the indefinite length. The counted octets are called the
/// body. Elements of indefinite length may be nested at any depth. Contents of definite length are
/// skipped unread.
///
/// # Errors
///
/// The first of these faults:
///
/// - `NoHeader`, if no valid header begins where an element must begin.
/// - `Truncated`, if the octets end within the contents of an element of definite length.
pub fn body_len(octets: &[u8]) -> Result<usize, BodyFault>
    ensures found { IfOk result (λ n. (body rest : List ℕ) × IsBody body
        × (octets.now ≡ body ++ rest) × (n ≡ length body)) }
    ensures none { IfErr result
        (λ f. (body rest : List ℕ) → IsBody body → octets.now ≢ body ++ rest) }
    ensures fault { IfErr result (λ f. IsBodyFault octets.now f) }
{
    let mut rest = octets;
    let mut depth = 1usize;
    'headers: while depth > 0 {
        let (after, inside) = step(rest, depth, octets.len() - rest.len())?;
        rest = after;
        depth = inside;
    }
    Ok(octets.len() - rest.len())
}

// Passes end-of-contents octets, an element of definite length, or a header of indefinite length,
// inside so many bodies; returns what follows, and inside how many it is.
fn step(octets: &[u8], depth: usize, at: usize) -> Result<(&[u8], usize), BodyFault>
    requires inside { 1 ≤ depth }
    requires small { depth ≤ 2 ^ 63 }
    ensures found { IfOk result (λ s. IsStep octets.now depth s.0.now s.1) }
    ensures none { IfErr result
        (λ f. (bodies more : List ℕ) → AreBodies depth bodies → octets.now ≢ bodies ++ more) }
    ensures fault { IfErr result (λ f. IsStepFault at octets.now f) }
{
    if is_end_of_contents(octets) {
        return Ok((&octets[2..], depth - 1));
    }
    match read_element(octets) {
        Ok(element) => Ok((element.rest, depth)),
        Err(ElementFault::Indefinite(header)) => Ok((&octets[header.header_len..], depth + 1)),
        Err(ElementFault::NoHeader(fault)) => Err(BodyFault::NoHeader { at, fault }),
        Err(ElementFault::Truncated(header)) => Err(BodyFault::Truncated { at, header }),
    }
}
