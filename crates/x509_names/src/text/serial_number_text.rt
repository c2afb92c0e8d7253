//! Serial numbers as text.

use crate::text::octets_text::OctetsText;
use der_asn1::IntRef;
use std::fmt;

/// A serial number, for printing: the contents octets of its INTEGER in hexadecimal with `:`
/// between them, such as `0D:F6:CA`. If there are several octets and the first one is 0, the first
/// one is not printed; it only shows that the number is positive. A negative number is printed in
/// two's complement, as it is encoded.
#[derive(Drop)]
pub struct SerialNumberText<'a>(pub IntRef<'a>);

impl<'a> fmt::Display for SerialNumberText<'a> {
    fn fmt<W: fmt::Write>(&self, f: &mut fmt::Formatter<W>) -> fmt::Result {
        let octets = match self.0.octets() {
            [0, rest @ ..] if !rest.is_empty() => rest,
            octets => octets,
        };
        let text = OctetsText {
            octets,
            separator: ":",
        };
        write!(f, "{text}")
    }
}
