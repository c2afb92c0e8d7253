//! Names as text.

use crate::text::attribute_text::AttributeText;
use std::alloc::Global;
use std::fmt;
use std::vec::Vec;
use x509::{Name, RelativeDistinguishedName};

/// A name, for printing as in RFC 4514. The last RelativeDistinguishedName is printed first. `,`
/// stands between RelativeDistinguishedNames, and `+` between the attributes of one
/// RelativeDistinguishedName, such as `CN=example.org,O=Example`. If RFC 4514 and RFC 4519 have no
/// short name for an attribute type, the type is printed as its OBJECT IDENTIFIER and the value in
/// hexadecimal.
///
/// Characters that a reader would not see as they are, such as control characters and those that
/// turn the text around them ([`is_hidden`](hidden_characters::is_hidden)), are printed as a
/// backslash and two hexadecimal digits for each octet in UTF-8, such as `\E2\80\AE` for U+202E.
/// The text is for people: two names are not the same if their texts are.
///
/// Printing takes time and memory in proportion to the size of the name. It fails if an allocation
/// fails.
#[derive(Drop)]
pub struct NameText<'n, 'a> {
    name: &'n Name<'a>,
    alloc: Global,
}

impl<'n, 'a> NameText<'n, 'a> {
    /// Wraps `name` for printing. When the name is printed, memory is allocated with `alloc`.
    pub fn new(alloc: Global, name: &'n Name<'a>) -> Self {
        NameText { name, alloc }
    }
}

impl<'n, 'a> fmt::Display for NameText<'n, 'a> {
    fn fmt<W: fmt::Write>(&self, f: &mut fmt::Formatter<W>) -> fmt::Result {
        write_levels(self.alloc, self.name, f)
    }
}

// Writes the levels of a name, the last first.
pub(crate) fn write_levels<W: fmt::Write>(
    alloc: Global,
    name: &Name<'_>,
    f: &mut fmt::Formatter<W>,
) -> fmt::Result {
    let mut levels = Vec::new(alloc);
    for level in name.levels.iter(alloc) {
        levels.push(level).map_err(|_| fmt::Error)?;
    }
    let mut is_first = true;
    for level in levels.iter().rev() {
        if !is_first {
            f.write_str(",")?;
        }
        is_first = false;
        write_level(alloc, level, f)?;
    }
    Ok(())
}

// Writes the attributes of a level.
pub(crate) fn write_level<W: fmt::Write>(
    alloc: Global,
    level: &RelativeDistinguishedName<'_>,
    f: &mut fmt::Formatter<W>,
) -> fmt::Result {
    let mut is_first = true;
    for attribute in level.attributes.iter(alloc) {
        if !is_first {
            f.write_str("+")?;
        }
        is_first = false;
        write!(f, "{}", AttributeText(attribute))?;
    }
    Ok(())
}
