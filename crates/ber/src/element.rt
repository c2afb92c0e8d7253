//! Elements of definite length, and end-of-contents octets.
ghost use Rattle.std.specs.Prelude.{◌≡◌, ◌≢◌, ◌↔◌, ◌+◌, ◌≤◌, ℕ, List, ◌++◌, length, IsTrue, IfOk, IfErr};
ghost use Rattle.der_base.specs.FixedOctets.{end_of_contents};
ghost use Rattle.ber.specs.Element.{IsElement, IsElementFault};
ghost use Rattle.ber.specs.declared.header.Header.{Header};

use crate::element_fault::ElementFault;
use crate::header::{Header, read_header};
use crate::length::Length;

/// An element of definite length (X.690 8.1.1), read from the front of a slice.
#[derive(Debug, Clone, Copy, PartialEq, Eq)]
pub struct Element<'a> {
    /// The header.
    pub header: Header,
    /// The contents octets.
    pub contents: &'a [u8],
    /// The octets of the slice after the element.
    pub rest: &'a [u8],
}

/// The element of definite length at the front of `octets`.
///
/// # Errors
///
/// - `NoHeader`, if the octets do not begin with a valid header. The error holds the first fault of
///   the header.
/// - `Indefinite`, if the octets begin with a header of indefinite length. The error holds the
///   header.
/// - `Truncated`, if the octets end within the contents of the element. The error holds the header.
#[inline(always)]
pub fn read_element(octets: &[u8]) -> Result<Element<'_>, ElementFault>
    ensures found { IfOk result (λ e. (x : List ℕ) × IsElement e.header e.contents.now x
        × (octets.now ≡ x ++ e.rest.now)) }
    ensures shorter { IfOk result (λ e. length e.rest.now + 2 ≤ length octets.now) }
    ensures none { IfErr result
        (λ f. (h : Header) (c x rest : List ℕ) → IsElement h c x → octets.now ≢ x ++ rest) }
    ensures fault { IfErr result (λ f. IsElementFault octets.now f) }
{
    let header = match read_header(octets) {
        Ok(header) => header,
        Err(fault) => return Err(ElementFault::NoHeader(fault)),
    };
    let length = match header.length {
        Length::Definite(length) => length as usize,
        Length::Indefinite => return Err(ElementFault::Indefinite(header)),
    };
    let after = &octets[header.header_len..];
    if after.len() < length {
        return Err(ElementFault::Truncated(header));
    }
    Ok(Element {
        header,
        contents: &after[..length],
        rest: &after[length..],
    })
}

/// Whether `octets` begin with the two end-of-contents octets (X.690 8.1.5), which close the
/// contents of an indefinite length. [`read_header`] reads them as a header with number 0 of class
/// UNIVERSAL.
#[inline(always)]
pub fn is_end_of_contents(octets: &[u8]) -> bool
    ensures { IsTrue result ↔ ((rest : List ℕ) × (octets.now ≡ end_of_contents ++ rest)) }
{
    matches!(octets, [0, 0, ..])
}
