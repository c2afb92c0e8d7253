//! Strings in ISO 8859-1.
ghost use Rattle.std.specs.Prelude.{Some};
ghost use Rattle.x509.specs.Text.{latin1_text};

use std::fmt;

/// Octets, each of which is the code of a character of ISO 8859-1.
#[derive(Clone, Copy, Drop)]
pub struct Latin1<'a> {
    /// The octets of the string.
    pub octets: &'a [u8],
}

/// Prints the characters.
impl<'a> fmt::Display for Latin1<'a> {
    ghost output = { λ v. Some (latin1_text v.octets.now) };

    fn fmt<W: fmt::Write>(&self, f: &mut fmt::Formatter<W>) -> fmt::Result {
        for octet in self.octets {
            f.write_char(char::from(*octet))?;
        }
        Ok(())
    }
}
