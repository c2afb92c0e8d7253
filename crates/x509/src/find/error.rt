//! Errors of lookups.

use der::Error;
use std::fmt;

/// The error of a lookup of an extension or an attribute by its type.
#[derive(Clone, Copy, Debug, PartialEq, Eq, Drop)]
pub enum FindError {
    /// More than one extension or attribute has the type.
    Repeated,
    /// The contents of the extension or the attribute are not the encoding of a value of its type.
    /// The field is the error of decoding them. Its position counts from the start of these
    /// contents: of the octets inside the extension's OCTET STRING, or inside the attribute's SET
    /// of values.
    Contents(Error),
}

impl fmt::Display for FindError {
    ghost use Rattle.x509.specs.FindText.{find_error_text};

    ghost output = { find_error_text };

    fn fmt<W: fmt::Write>(&self, f: &mut fmt::Formatter<W>) -> fmt::Result {
        match self {
            FindError::Repeated => f.write_str("the type occurs more than once"),
            FindError::Contents(error) => write!(f, "invalid contents: {error}"),
        }
    }
}

impl std::error::Error for FindError {}
