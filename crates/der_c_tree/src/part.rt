//! Finding the octets of an element of a tree.
ghost use Rattle.std.specs.Prelude.{◌≡◌, ◌<◌, ◌≤◌, ◌+◌, true, false, length, take, drop};
ghost use Rattle.der_c_tree.specs.Part.{IsPartOf};

use der_c_core::DerSpan;
use schema_read::Entry;

/// Sets `part` to all octets of the element with the index `index`: its header and its contents.
/// Returns false, and leaves `part` unchanged, if there is no element with this index.
pub fn der_tree_octets<'a>(
    octets: &'a [u8],
    entries: &[Entry],
    index: usize,
    part: &mut DerSpan<'a>,
) -> bool
    ensures given { result ≡ true → IsPartOf octets.now part.new.octets.now }
    ensures same { result ≡ false → part.new ≡ part.old }
{
    let Some(entry) = entries.get(index) else {
        return false;
    };
    let count = (entry.header_len as usize).saturating_add(entry.contents_len);
    put_part(octets, entry.offset, count, part)
}

/// Sets `part` to the contents octets of the element with the index `index`. Returns false, and
/// leaves `part` unchanged, if there is no element with this index.
pub fn der_tree_contents<'a>(
    octets: &'a [u8],
    entries: &[Entry],
    index: usize,
    part: &mut DerSpan<'a>,
) -> bool
    ensures given { result ≡ true → IsPartOf octets.now part.new.octets.now }
    ensures same { result ≡ false → part.new ≡ part.old }
{
    let Some(entry) = entries.get(index) else {
        return false;
    };
    let start = entry.offset.saturating_add(entry.header_len as usize);
    put_part(octets, start, entry.contents_len, part)
}

// Sets `part` to so many octets from a place on, if they are there.
fn put_part<'a>(octets: &'a [u8], start: usize, count: usize, part: &mut DerSpan<'a>) -> bool
    ensures given { result ≡ true → (start + count ≤ length octets.now)
        × (part.new.octets.now ≡ take count (drop start octets.now)) }
    ensures refused { result ≡ false → (length octets.now < start + count) × (part.new ≡ part.old) }
{
    if start > octets.len() || count > octets.len() - start {
        return false;
    }
    *part = DerSpan {
        octets: &octets[start..start + count],
    };
    true
}
