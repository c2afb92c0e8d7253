//! Octets in hexadecimal.
ghost use Rattle.std.specs.Prelude.{Some};
ghost use Rattle.std.specs.Fmt.{WritesOnOk};
ghost use Rattle.der_asn1.specs.Printed.{octet_text, octets_text};

use std::fmt;

// Octets that are printed in hexadecimal.
#[derive(Drop)]
pub(crate) struct Hexadecimal<'a>(pub(crate) &'a [u8]);

// Prints each octet as two digits, the letters in upper case, with nothing between the octets.
impl<'a> fmt::Display for Hexadecimal<'a> {
    ghost output = { λ h. Some (octets_text h.0.now) };

    fn fmt<W: fmt::Write>(&self, f: &mut fmt::Formatter<W>) -> fmt::Result {
        for octet in self.0 {
            write_octet(*octet, f)?;
        }
        Ok(())
    }
}

// Writes the octet as two digits, the letters in upper case.
fn write_octet<W: fmt::Write>(octet: u8, f: &mut fmt::Formatter<W>) -> fmt::Result
    ensures { WritesOnOk W.write_str_gives f.old result (octet_text octet) f.new }
{
    write!(f, "{octet:02X}")
}
