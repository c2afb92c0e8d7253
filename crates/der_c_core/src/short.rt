//! Fast reading of elements whose header is short: an identifier of one octet, and a definite
//! length of at most three octets. For any other element, the functions here return `None`. `None`
//! is not an error: the caller then reads the element in another way.
ghost use Rattle.std.specs.Prelude.{◌≡◌, ◌<◌, true, IfSome};
ghost use Rattle.der_c_core.specs.CReader.{reader_state};
ghost use Rattle.der_c_core.specs.Short.{IsPlain, IsShortHeader, IsShortElement};

use crate::reader::DerReader;
use der_core::{Reader, universal_tag};

/// An element with an identifier of one octet and a definite length. All octets of the element are
/// there. Positions are in octets from the start of the input.
#[derive(Clone, Copy)]
pub(crate) struct ShortElement {
    /// The identifier octet.
    pub(crate) first: u8,
    /// The position at which the contents begin.
    pub(crate) from: usize,
    /// The position at which the contents end.
    pub(crate) to: usize,
}

/// A header with an identifier of one octet and a definite length.
#[derive(Clone, Copy)]
pub(crate) struct ShortHeader {
    /// The identifier octet.
    pub(crate) first: u8,
    /// The number of octets of the header.
    pub(crate) size: usize,
    /// The number of contents octets that the header states. Some of them may be missing in the
    /// input.
    pub(crate) count: usize,
}

// The next element, if it is there as a whole and its header is short. The reader does not move.
#[inline(always)]
pub(crate) fn short_element(reader: &DerReader<'_>) -> Option<ShortElement>
    ensures { IfSome result (λ e. IsShortElement e.first e.from e.to (reader_state reader.now)) }
{
    let header = short_header(reader)?;
    let from = reader.position + header.size;
    let to = from + header.count;
    if to > reader.end as usize {
        return None;
    }
    Some(ShortElement {
        first: header.first,
        from,
        to,
    })
}

// The next header, if it has a tag of one octet and a definite length of at most three octets.
#[inline(always)]
fn short_header(reader: &DerReader<'_>) -> Option<ShortHeader>
    ensures { IfSome result (λ h. IsShortHeader h (reader_state reader.now)) }
{
    let Ok(next) = reader.remaining() else {
        return None;
    };
    if next.len() < 2 || !is_identifier(next[0]) {
        return None;
    }
    let (first, length) = (next[0], next[1]);
    if length < 128 {
        return Some(ShortHeader {
            first,
            size: 2,
            count: length as usize,
        });
    }
    if length == 0x81 && next.len() > 2 {
        let count = number_of(next[2]);
        if count >= 128 {
            return Some(ShortHeader {
                first,
                size: 3,
                count,
            });
        }
    }
    if length == 0x82 && next.len() > 3 {
        let (high, low) = (number_of(next[2]), number_of(next[3]));
        if high > 0 {
            return Some(ShortHeader {
                first,
                size: 4,
                count: high * 256 + low,
            });
        }
    }
    None
}

// An octet as a number.
#[inline(always)]
fn number_of(octet: u8) -> usize
    ensures same { result ≡ octet }
    ensures small { result < 256 }
{
    octet as usize
}

// Whether this octet is a whole identifier, under any rules, and the word of its tag.
#[inline(always)]
pub(crate) fn is_identifier(octet: u8) -> bool
    ensures { result ≡ true → IsPlain octet }
{
    if octet < 0x40 {
        return universal_tag(octet).is_some();
    }
    octet % 32 < 31
}
