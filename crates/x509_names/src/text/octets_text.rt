//! Octets in hexadecimal.

use std::fmt;

// Octets, which are printed as two digits each, the letters in upper case, with `separator` between
// them.
#[derive(Drop)]
pub(crate) struct OctetsText<'a> {
    pub(crate) octets: &'a [u8],
    pub(crate) separator: &'static str,
}

impl<'a> fmt::Display for OctetsText<'a> {
    fn fmt<W: fmt::Write>(&self, f: &mut fmt::Formatter<W>) -> fmt::Result {
        let mut is_first = true;
        for octet in self.octets {
            if !is_first {
                f.write_str(self.separator)?;
            }
            is_first = false;
            write!(f, "{octet:02X}")?;
        }
        Ok(())
    }
}
