//! Why verdicts on signatures make no valid path.

use std::fmt;

/// Why verdicts on the signatures of a path make no [`ValidPath`](crate::ValidPath).
#[derive(Clone, Copy, Debug, Drop, PartialEq, Eq)]
pub enum Unsigned {
    /// There are fewer verdicts than signatures.
    TooFew,
    /// There are more verdicts than signatures.
    TooMany,
    /// The signature of the certificate at this place does not verify. It is the first one.
    Failed(usize),
}

impl fmt::Display for Unsigned {
    fn fmt<W: fmt::Write>(&self, f: &mut fmt::Formatter<W>) -> fmt::Result {
        match self {
            Unsigned::TooFew => f.write_str("there are fewer verdicts than signatures"),
            Unsigned::TooMany => f.write_str("there are more verdicts than signatures"),
            Unsigned::Failed(at) => write!(f, "the signature of certificate {at} does not verify"),
        }
    }
}

impl std::error::Error for Unsigned {}
