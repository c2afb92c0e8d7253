//! OBJECT IDENTIFIERs in dotted notation.

use crate::contents::checked::Checked;
use crate::identifiers::object_identifier::ObjectIdentifierGrammar;
use std::fmt;

/// Prints the arcs in decimal, separated by dots, such as `1.2.840.113549`. An arc whose
/// subidentifier needs more than 128 bits is printed as `?` (see [`Arcs`](crate::Arcs)).
impl<'a> fmt::Display for Checked<'a, ObjectIdentifierGrammar> {
    fn fmt<W: fmt::Write>(&self, f: &mut fmt::Formatter<W>) -> fmt::Result {
        let mut is_first = true;
        for arc in self.arcs() {
            if !is_first {
                f.write_str(".")?;
            }
            is_first = false;
            match arc {
                Some(number) => number.fmt(f)?,
                None => f.write_str("?")?,
            }
        }
        Ok(())
    }
}
