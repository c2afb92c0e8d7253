//! Writing of values from the end of a buffer.
ghost use Rattle.std.specs.Prelude.{◌≡◌, ◌^◌, ◌<◌, ◌≤◌, length, IfSome};
ghost use Rattle.der_base.specs.Arithmetic.{checked_length, element_count};
ghost use Rattle.der_base.specs.HeaderGrammar.{header_octets};
ghost use Rattle.der_core.specs.Before.{Certain, CertainIfSome, PlacedIfSpace};
ghost use Rattle.der_core.specs.Writer.{Writes, write_outcome};

use crate::encode::Encode;
use crate::header::Header;
use crate::tag::first_octet_of;
use der_base::{Length, Tag};

/// Copies `octets` into the buffer so that they end before index `end`, and returns the index at
/// which they start. All other octets of the buffer are unchanged. If `octets` do not fit before
/// `end`, the result and the contents of the buffer are unspecified.
#[inline(always)]
pub fn place_before(octets: &[u8], buf: &mut [u8], end: u32) -> u32
    ensures { PlacedIfSpace octets.now result end buf.old buf.new }
{
    let stop = end as usize;
    if octets.len() > stop || stop > buf.len() {
        return end;
    }
    let start = stop - octets.len();
    buf[start..stop].copy_from_slice(octets);
    start as u32
}

/// The number of octets, if a length can count them. A type whose contents are octets that are
/// always written returns it from
/// [`EncodeValue::value_len_before`](crate::EncodeValue::value_len_before).
#[inline(always)]
pub fn octets_len(octets: &[u8]) -> Option<u32>
    ensures { CertainIfSome (Unit {0}) (checked_length (length octets.now))
        (λ s r t. Writes (write_outcome octets.now s) r t) octets.now result }
{
    if octets.len() > u32::MAX as usize {
        return None;
    }
    Some(octets.len() as u32)
}

// The number of octets of the encoding, if it is certain that the value can be written, and if they
// fit into a buffer of `space` octets.
#[inline(always)]
pub(crate) fn len_within<T: Encode>(value: &T, space: usize) -> Option<u32>
    ensures certain { IfSome result (Certain (T.encodable value.now) (T.size value.now)
        (T.encode_answers value.now) (T.encoding value.now)) }
    ensures fits { IfSome result (λ n. n ≤ space) }
    ensures countable { IfSome result (λ n. n < 2 ^ 32) }
{
    match value.len_before() {
        Some(count) if count as usize <= space => Some(count),
        _ => None,
    }
}

// The number of octets of an element with this tag and so many contents octets.
#[inline(always)]
pub(crate) fn element_len(tag: Tag, count: u32) -> Option<u32>
    ensures count { IfSome result (λ n. n ≡ element_count tag count) }
    ensures countable { IfSome result (λ n. n < 2 ^ 32) }
{
    let header = tag.octet_count() + Length::new(count).octet_count();
    header.checked_add(count)
}

// Writes the header of an element with this tag and so many contents octets before index `end`. A
// header of more than two octets is written by a separate function, so that the writer of an
// element is small enough to be inlined.
#[inline(always)]
pub(crate) fn header_before(tag: Tag, count: u32, buf: &mut [u8], end: u32) -> u32
    ensures { PlacedIfSpace (header_octets tag count) result end buf.old buf.new }
{
    let low = tag.number().0;
    if low < 31 && count < 0x80 {
        return place_before(&[first_octet_of(tag, low as u8), count as u8], buf, end);
    }
    long_header_before(tag, count, buf, end)
}

// Does the same, but is never inlined.
#[inline(never)]
fn long_header_before(tag: Tag, count: u32, buf: &mut [u8], end: u32) -> u32
    ensures { PlacedIfSpace (header_octets tag count) result end buf.old buf.new }
{
    let low = tag.number().0;
    let len = Length::new(count);
    if low < 31 && len.octet_count() == 2 {
        let first = first_octet_of(tag, low as u8);
        return place_before(&[first, 0x81, (count % 256) as u8], buf, end);
    }
    if low < 31 && len.octet_count() == 3 {
        let first = first_octet_of(tag, low as u8);
        let (high, low) = ((count / 256 % 256) as u8, (count % 256) as u8);
        return place_before(&[first, 0x82, high, low], buf, end);
    }
    Header::new(tag, len).encode_before(buf, end)
}
