//! Why the end of contents of indefinite length is not found.

use crate::fault::Fault;
use crate::header::Header;

/// Why [`body_len`](crate::body_len) finds no end of contents of indefinite length, and where.
/// Offsets count octets from the start of the octets that it reads.
#[derive(Debug, Clone, Copy, PartialEq, Eq)]
pub enum BodyFault {
    /// There is no valid header where an element should begin.
    NoHeader {
        /// The offset at which the header should begin.
        at: usize,
        /// Why there is no valid header. The offset in this fault counts octets from `at`.
        fault: Fault,
    },
    /// The octets end within the contents of an element of definite length.
    Truncated {
        /// The offset at which the header of the element begins.
        at: usize,
        /// The header of the element.
        header: Header,
    },
}
