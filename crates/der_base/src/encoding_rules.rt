//! The rules under which values are encoded: BER or DER.
ghost use Rattle.std.specs.Prelude.{◌≡◌, ◌↔◌, IsTrue, Some};
ghost use Rattle.der_base.specs.declared.encoding_rules.EncodingRules.TheVariants.{Ber, Der};

use crate::error::{Error, ErrorKind, Result};
use std::fmt;
use std::str::FromStr;

/// The encoding rules under which a reader reads.
#[derive(Clone, Copy, Debug, Default, PartialEq, Eq, PartialOrd, Ord)]
pub enum EncodingRules {
    /// The Basic Encoding Rules, as far as this library supports them. A length may have the
    /// indefinite form, and an OCTET STRING may be in segments. A definite length must have the
    /// fewest octets, as under the Distinguished Encoding Rules.
    Ber,
    /// The Distinguished Encoding Rules.
    #[default]
    Der,
}

impl EncodingRules {
    /// Whether the rules are the Basic Encoding Rules.
    pub const fn is_ber(self) -> bool
        ensures { IsTrue result ↔ (self ≡ Ber) }
    {
        matches!(self, EncodingRules::Ber)
    }

    /// Whether the rules are the Distinguished Encoding Rules.
    pub const fn is_der(self) -> bool
        ensures { IsTrue result ↔ (self ≡ Der) }
    {
        matches!(self, EncodingRules::Der)
    }
}

/// Parses the name of encoding rules: `ber`, `BER`, `der` or `DER`.
///
/// # Errors
///
/// - An error of the kind `EncodingRules`, without a position, if the text is none of these four
///   names.
impl FromStr for EncodingRules {
    type Err = Error;

    ghost use Rattle.der_base.specs.Names.{rules_of_name};

    ghost from_str_gives = { λ text r. r ≡ rules_of_name text };

    fn from_str(text: &str) -> Result<Self> {
        match text {
            "ber" | "BER" => Ok(EncodingRules::Ber),
            "der" | "DER" => Ok(EncodingRules::Der),
            _ => Err(ErrorKind::EncodingRules.to_error()),
        }
    }
}

/// Prints `BER` or `DER`.
impl fmt::Display for EncodingRules {
    ghost use Rattle.der_base.specs.Text.{rules_text};

    ghost output = { λ r. Some (rules_text r) };

    fn fmt<W: fmt::Write>(&self, f: &mut fmt::Formatter<W>) -> fmt::Result {
        f.write_str(match self {
            EncodingRules::Ber => "BER",
            EncodingRules::Der => "DER",
        })
    }
}
