//! Names of a subjectAltName as text.

use crate::text::escaped::Escaped;
use crate::text::name_text::write_levels;
use crate::text::octets_text::OctetsText;
use std::alloc::Global;
use std::fmt;
use x509::GeneralName;

/// A name of a subjectAltName, for printing. First comes its kind, in the words of openssl, then
/// its value, such as `DNS:example.org` or `IP Address:192.0.2.1`. Characters are escaped as in
/// [`NameText`](crate::NameText), so a `,` or a line break in a value cannot be mistaken for the
/// end of the value.
///
/// An x400Address and an ediPartyName are printed as their kind only. An otherName is printed as
/// its kind and its type.
///
/// Printing fails if an allocation fails.
#[derive(Drop)]
pub struct GeneralNameText<'n, 'a> {
    name: &'n GeneralName<'a>,
    alloc: Global,
}

impl<'n, 'a> GeneralNameText<'n, 'a> {
    /// Wraps `name` for printing. When a directoryName is printed, memory is allocated with
    /// `alloc`.
    pub fn new(alloc: Global, name: &'n GeneralName<'a>) -> Self {
        GeneralNameText { name, alloc }
    }
}

impl<'n, 'a> fmt::Display for GeneralNameText<'n, 'a> {
    fn fmt<W: fmt::Write>(&self, f: &mut fmt::Formatter<W>) -> fmt::Result {
        write_name(self.alloc, self.name, f)
    }
}

// Writes the kind of a name, and its value.
fn write_name<W: fmt::Write>(
    alloc: Global,
    name: &GeneralName<'_>,
    f: &mut fmt::Formatter<W>,
) -> fmt::Result {
    match name {
        GeneralName::Rfc822Name(text) => write_text("email:", text.0.as_str(), f),
        GeneralName::DnsName(text) => write_text("DNS:", text.0.as_str(), f),
        GeneralName::UniformResourceIdentifier(text) => write_text("URI:", text.0.as_str(), f),
        GeneralName::IpAddress(address) => write_address(address.0.octets(), f),
        GeneralName::DirectoryName(name) => {
            f.write_str("DirName:")?;
            write_levels(alloc, &name.0, f)
        }
        GeneralName::RegisteredId(name) => write!(f, "Registered ID:{}", name.0),
        GeneralName::OtherName(name) => write!(f, "othername:{}", name.0.type_id),
        GeneralName::X400Address(_) => f.write_str("X400Name"),
        GeneralName::EdiPartyName(_) => f.write_str("EdiPartyName"),
    }
}

// Writes a kind and the characters of a name.
fn write_text<W: fmt::Write>(kind: &str, text: &str, f: &mut fmt::Formatter<W>) -> fmt::Result {
    write!(f, "{kind}{}", Escaped(text))
}

// Writes an address: four octets in decimal, sixteen as eight numbers in hexadecimal, and octets of
// any other number, which are no address, as they are.
fn write_address<W: fmt::Write>(octets: &[u8], f: &mut fmt::Formatter<W>) -> fmt::Result {
    f.write_str("IP Address:")?;
    match octets {
        [a, b, c, d] => write!(f, "{a}.{b}.{c}.{d}"),
        octets if octets.len() == 16 => write_groups(octets, f),
        octets => write!(
            f,
            "{}",
            OctetsText {
                octets,
                separator: ":"
            }
        ),
    }
}

// Writes each two octets as a number.
fn write_groups<W: fmt::Write>(octets: &[u8], f: &mut fmt::Formatter<W>) -> fmt::Result {
    let mut is_first = true;
    for pair in octets.chunks_exact(2) {
        if !is_first {
            f.write_str(":")?;
        }
        is_first = false;
        if let [high, low] = pair {
            write!(f, "{:X}", u32::from(*high) * 256 + u32::from(*low))?;
        }
    }
    Ok(())
}
