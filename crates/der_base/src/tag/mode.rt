//! Tagging modes.
ghost use Rattle.std.specs.Prelude.{◌≡◌, Some};

use crate::error::{Error, ErrorKind, Result};
use std::fmt;
use std::str::FromStr;

/// How an additional tag is applied to a value that already has a tag (X.690 8.14). The default is
/// explicit tagging.
#[derive(Clone, Copy, Debug, Default, PartialEq, Eq, PartialOrd, Ord)]
pub enum TagMode {
    /// The element of the value, with its own tag, is the contents of an element with the
    /// additional tag.
    #[default]
    Explicit,
    /// The element of the value has the additional tag instead of the value's own tag.
    Implicit,
}

/// Parses the name of a tagging mode: `EXPLICIT`, `explicit`, `IMPLICIT` or `implicit`.
///
/// # Errors
///
/// - An error of the kind `TagModeUnknown`, without a position, if the text is none of these four
///   names.
impl FromStr for TagMode {
    type Err = Error;

    ghost use Rattle.der_base.specs.Names.{mode_of_name};

    ghost from_str_gives = { λ text r. r ≡ mode_of_name text };

    fn from_str(text: &str) -> Result<Self> {
        match text {
            "EXPLICIT" | "explicit" => Ok(TagMode::Explicit),
            "IMPLICIT" | "implicit" => Ok(TagMode::Implicit),
            _ => Err(ErrorKind::TagModeUnknown.to_error()),
        }
    }
}

/// Prints the ASN.1 keyword: `EXPLICIT` or `IMPLICIT`.
impl fmt::Display for TagMode {
    ghost use Rattle.der_base.specs.Text.{mode_text};

    ghost output = { λ m. Some (mode_text m) };

    fn fmt<W: fmt::Write>(&self, f: &mut fmt::Formatter<W>) -> fmt::Result {
        f.write_str(match self {
            TagMode::Explicit => "EXPLICIT",
            TagMode::Implicit => "IMPLICIT",
        })
    }
}
