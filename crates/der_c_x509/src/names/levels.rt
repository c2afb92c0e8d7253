//! Writing the RelativeDistinguishedNames of a Name in the order of RFC 4514: the last one comes
//! first.
ghost use Rattle.std.specs.Prelude.{◌≡◌, length};

use std::alloc::Global;
use std::fmt;
use x509::Name;
use x509_names::LevelText;

/// The separator that [`write_levels`] writes between two RelativeDistinguishedNames.
/// [`turn_levels`] replaces it. A written RelativeDistinguishedName does not contain it, because
/// control characters in values are escaped.
const BETWEEN: u8 = 0;

/// Writes the RelativeDistinguishedNames of `name` as text, from the first to the last. Between two
/// of them is a zero octet. Fails if `out` fails.
pub(crate) fn write_levels<W: fmt::Write>(
    alloc: Global,
    name: &Name<'_>,
    out: &mut W,
) -> fmt::Result {
    let mut is_first = true;
    for level in name.levels.iter(alloc) {
        if !is_first {
            out.write_char(char::from(BETWEEN))?;
        }
        is_first = false;
        write!(out, "{}", LevelText::new(alloc, &level))?;
    }
    Ok(())
}

/// Reorders a text that [`write_levels`] has written as RFC 4514, 2.1, demands. Reverses the order
/// of the RelativeDistinguishedNames, and replaces each zero octet by `,`. The length of `text`
/// does not change.
pub(crate) fn turn_levels(text: &mut [u8])
    ensures { length text.new ≡ length text.old }
{
    text.reverse();
    let mut start = 0;
    'octets: for at in 0..text.len() {
        if text[at] == BETWEEN {
            text[at] = b',';
            text[start..at].reverse();
            start = at + 1;
        }
    }
    text[start..].reverse();
}
