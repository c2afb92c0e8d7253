//! Why octets do not begin with an element of definite length.

use crate::fault::Fault;
use crate::header::Header;

/// Why octets do not begin with an element of definite length.
#[derive(Debug, Clone, Copy, PartialEq, Eq)]
pub enum ElementFault {
    /// The octets do not begin with a valid header. The `Fault` is the first fault of the header.
    NoHeader(Fault),
    /// The octets begin with this header, whose length is indefinite.
    Indefinite(Header),
    /// The octets begin with this header, and end before all contents that its length announces.
    Truncated(Header),
}
