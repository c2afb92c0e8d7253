//! Entering and opening the contents of elements, for C.
ghost use Rattle.std.specs.Prelude.{◌≡◌};
ghost use Rattle.der_core.specs.ReaderState.{Same};
ghost use Rattle.der_core.specs.Header.{head_of};
ghost use Rattle.der_c_core.specs.EnterCalls.{EntersElement, EntersContents, OpensElement, CannotOpen};
ghost use Rattle.der_c_core.specs.declared.reader.DerReader.{DerReader as Reading};
ghost use Rattle.der_c_core.specs.CReader.{reader_state};

use crate::element::{DerElement, refuse_tag};
use crate::error::{DerError, foreign};
use crate::reader::{DerReader, MAX_DEPTH};
use crate::short::short_element;
use crate::tag::word_of;
use der_base::{ErrorKind, Length};
use der_core::{Header, Reader, decode_header};

/// Consumes the next element, and makes `inside` a reader of its contents. This element must have
/// the tag word `tag` (see [`DerElement::tag`]).
///
/// A call that fails leaves `inside` unchanged. Fails with:
///
/// - the errors of [`der_expect`](crate::der_expect);
/// - `NestingDepth` at the start of the contents, if `reader` is already inside 64 nested elements.
///   All octets of the element must be there; otherwise the error is an error of `der_expect`.
///
/// After `TagUnexpected`, `reader` is unchanged. After any other error, `reader` has failed.
#[inline(always)]
pub fn der_enter<'a>(reader: &mut DerReader<'a>, tag: u64, inside: &mut DerReader<'a>) -> DerError
    ensures same { Same (reader_state reader.old) (reader_state reader.new) }
    ensures enters { EntersElement tag (reader_state reader.old) result inside.old inside.new
        (reader_state reader.new) }
{
    if let Some(next) = short_element(reader) {
        if next.first as u64 != tag {
            return refuse_tag(reader, tag, next.first as u64);
        }
        if reader.depth < MAX_DEPTH {
            *inside = DerReader {
                octets: reader.octets,
                position: next.from,
                end: next.to as u32,
                depth: reader.depth + 1,
                ber: reader.ber,
                failed: false,
            };
            reader.position = next.to;
            return DerError::NONE;
        }
    }
    enter_slowly(reader, tag, inside)
}

// Enters an element with this tag and any header. This is an inlined function, so that a caller sets
// up the memory for its result only where it calls it.
#[inline(always)]
fn enter_slowly<'a>(reader: &mut DerReader<'a>, tag: u64, inside: &mut DerReader<'a>) -> DerError
    ensures same { Same (reader_state reader.old) (reader_state reader.new) }
    ensures enters { EntersElement tag (reader_state reader.old) result inside.old inside.new
        (reader_state reader.new) }
{
    enter_generally(reader, tag, inside)
}

// Enters an element with this tag and any header, and reports each error.
#[inline(never)]
fn enter_generally<'a>(reader: &mut DerReader<'a>, tag: u64, inside: &mut DerReader<'a>) -> DerError
    ensures same { Same (reader_state reader.old) (reader_state reader.new) }
    ensures enters { EntersElement tag (reader_state reader.old) result inside.old inside.new
        (reader_state reader.new) }
{
    let start = reader.position;
    match decode_header(reader) {
        Ok(header) => {
            let met = word_of(header.tag());
            if met != tag {
                reader.position = start;
                return refuse_tag(reader, tag, met);
            }
            enter(reader, header, inside)
        }
        Err(error) => reader.fail(error),
    }
}

// Consumes the contents after a header, and makes `inside` a reader of them.
#[inline(always)]
fn enter<'a>(reader: &mut DerReader<'a>, header: Header, inside: &mut DerReader<'a>) -> DerError
    ensures same { Same (reader_state reader.old) (reader_state reader.new) }
    ensures enters { EntersContents (head_of header) (reader_state reader.old) result inside.old
        inside.new (reader_state reader.new) }
{
    let start = reader.position;
    let length = header.length();
    if let Err(error) = reader.read_slice(length) {
        return reader.fail(error);
    }
    if reader.depth >= MAX_DEPTH {
        reader.position = start;
        return reader.fail(ErrorKind::NestingDepth.at(Length::new(start as u32)));
    }
    *inside = DerReader {
        octets: reader.octets,
        position: start,
        end: start as u32 + u32::from(length.sans_eoc()),
        depth: reader.depth + 1,
        ber: reader.ber,
        failed: reader.failed,
    };
    DerError::NONE
}

/// Makes `inside` a reader of the contents of `element`. `element` must have been read by `reader`
/// or by a copy of `reader`. The position of `reader` does not change.
///
/// A call that fails leaves `inside` unchanged. Fails with:
///
/// - `Failed` at the position of `reader`, if `reader` has failed;
/// - `Reader` without a position, if `element` does not lie in the octets of `reader`. `reader` is
///   unchanged after this error;
/// - `NestingDepth` at the start of the contents, if `reader` is already inside 64 nested elements.
///   `reader` has failed after this error.
#[inline(always)]
pub fn der_open<'a>(
    reader: &mut DerReader<'a>,
    element: &DerElement<'a>,
    inside: &mut DerReader<'a>,
) -> DerError
    ensures { OpensElement (reader_state reader.old) element.now result inside.old inside.new
        (reader_state reader.new) }
{
    let start = element.contents_start;
    let length = element.contents.len();
    let space = reader.octets.len();
    if !reader.failed
        && start as usize <= space
        && length <= space - start as usize
        && reader.depth < MAX_DEPTH
    {
        *inside = DerReader {
            octets: reader.octets,
            position: start as usize,
            end: start + length as u32,
            depth: reader.depth + 1,
            ber: reader.ber,
            failed: false,
        };
        return DerError::NONE;
    }
    refuse_opening(reader, element)
}

// Refuses to open an element.
#[inline(never)]
fn refuse_opening(reader: &mut DerReader<'_>, element: &DerElement<'_>) -> DerError
    requires refused { CannotOpen (reader_state reader.old) element.now }
    ensures { (inside : Reading) → OpensElement (reader_state reader.old) element.now result inside inside
        (reader_state reader.new) }
{
    let start = element.contents_start;
    let space = reader.octets.len();
    if reader.failed {
        return reader.refuse();
    }
    if start as usize > space || element.contents.len() > space - start as usize {
        return foreign();
    }
    reader.fail(ErrorKind::NestingDepth.at(Length::new(start)))
}
