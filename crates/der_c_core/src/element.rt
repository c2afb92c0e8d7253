//! Reading and skipping elements, for C.
ghost use Rattle.std.specs.Prelude.{◌≡◌, ◌^◌, ◌<◌, ◌≤◌, length};
ghost use Rattle.der_core.specs.ReaderState.{Same};
ghost use Rattle.der_core.specs.Header.{head_of};
ghost use Rattle.der_c_core.specs.ElementCalls.{ReadsContents, ReadsElement, ExpectsElement, FindsOptional, MeetsElement, SkipsElement, RefusesTag, unexpected_code};
ghost use Rattle.der_c_core.specs.Short.{IsShortValue};
ghost use Rattle.der_c_core.specs.CReader.{reader_state};

use crate::error::DerError;
use crate::reader::DerReader;
use crate::short::{ShortElement, short_element};
use crate::tag::{is_tag, word_of};
use der_base::ErrorKind;
use der_core::{Header, Reader, decode_header};

/// An element: a header and its contents. Positions are in octets from the start of the input.
#[repr(C)]
#[derive(Clone, Copy)]
pub struct DerElement<'a> {
    /// The contents octets, without end-of-contents octets.
    pub contents: &'a [u8],
    /// The tag word, `der_tag` in C: the first octet of the identifier, plus 256 times the tag
    /// number if the number is 31 or more.
    pub tag: u64,
    /// The position at which the header begins.
    pub start: u32,
    /// The position at which the contents begin.
    pub contents_start: u32,
    /// Whether the constructed bit of the identifier is set.
    pub constructed: bool,
    /// Whether the length was read in the indefinite form.
    pub indefinite: bool,
}

impl DerElement<'_> {
    // no element
    pub(crate) const NONE: DerElement<'static> = DerElement {
        contents: &[],
        tag: 0,
        start: 0,
        contents_start: 0,
        constructed: false,
        indefinite: false,
    };
}

// The element of a short header that begins at `start`, with its contents from `octets`.
#[inline(always)]
pub(crate) fn short_value<'a>(octets: &'a [u8], start: u32, short: ShortElement) -> DerElement<'a>
    requires ordered { short.from ≤ short.to }
    requires there { short.to ≤ length octets.now }
    requires addressable { short.from < 2 ^ 32 }
    ensures { IsShortValue octets.now start short.first short.from short.to result }
{
    DerElement {
        contents: &octets[short.from..short.to],
        tag: short.first as u64,
        start,
        contents_start: short.from as u32,
        constructed: short.first / 32 % 2 == 1,
        indefinite: false,
    }
}

// Reads the contents after a header that begins at `start`.
#[inline(always)]
fn read_element_contents<'a>(
    reader: &mut DerReader<'a>,
    start: u32,
    header: Header,
    element: &mut DerElement<'a>,
) -> DerError
    ensures same { Same (reader_state reader.old) (reader_state reader.new) }
    ensures reads { ReadsContents (head_of header) start (reader_state reader.old) result
        element.old element.new (reader_state reader.new) }
{
    let contents_start = reader.position as u32;
    let length = header.length();
    match reader.read_slice(length) {
        Ok(octets) => {
            *element = DerElement {
                contents: &octets[..u32::from(length.sans_eoc()) as usize],
                tag: word_of(header.tag()),
                start,
                contents_start,
                constructed: header.is_constructed(),
                indefinite: length.is_indefinite(),
            };
            DerError::NONE
        }
        Err(error) => reader.fail(error),
    }
}

/// Reads the next element into `element`: its header, its contents, and the end-of-contents octets
/// of an indefinite length.
///
/// A call that fails leaves `element` unchanged, and `reader` has failed after it. Fails with:
///
/// - the errors of [`der_read_header`](crate::der_read_header);
/// - `Incomplete` or `Overflow`, if octets of the contents are missing.
#[inline(always)]
pub fn der_read_element<'a>(reader: &mut DerReader<'a>, element: &mut DerElement<'a>) -> DerError
    ensures same { Same (reader_state reader.old) (reader_state reader.new) }
    ensures reads { ReadsElement (reader_state reader.old) result element.old element.new
        (reader_state reader.new) }
{
    if let Some(next) = short_element(reader) {
        *element = short_value(reader.octets, reader.position as u32, next);
        reader.position = next.to;
        return DerError::NONE;
    }
    read_slowly(reader, element)
}

// Reads an element with any header. This is an inlined function, so that a caller sets up the memory
// for its result only where it calls it.
#[inline(always)]
fn read_slowly<'a>(reader: &mut DerReader<'a>, element: &mut DerElement<'a>) -> DerError
    ensures same { Same (reader_state reader.old) (reader_state reader.new) }
    ensures reads { ReadsElement (reader_state reader.old) result element.old element.new
        (reader_state reader.new) }
{
    read_generally(reader, element)
}

// Reads an element with any header, and reports each error.
#[inline(never)]
pub(crate) fn read_generally<'a>(
    reader: &mut DerReader<'a>,
    element: &mut DerElement<'a>,
) -> DerError
    ensures same { Same (reader_state reader.old) (reader_state reader.new) }
    ensures reads { ReadsElement (reader_state reader.old) result element.old element.new
        (reader_state reader.new) }
{
    let start = reader.position as u32;
    match decode_header(reader) {
        Ok(header) => read_element_contents(reader, start, header, element),
        Err(error) => reader.fail(error),
    }
}

/// Consumes the next element without storing it: the header, the contents, and the end-of-contents
/// octets of an indefinite length.
///
/// Fails with the errors of [`der_read_element`]. After an error, `reader` has failed.
#[inline(always)]
pub fn der_skip(reader: &mut DerReader<'_>) -> DerError
    ensures same { Same (reader_state reader.old) (reader_state reader.new) }
    ensures skips { SkipsElement (reader_state reader.old) result (reader_state reader.new) }
{
    if let Some(next) = short_element(reader) {
        reader.position = next.to;
        return DerError::NONE;
    }
    let mut element = DerElement::NONE;
    read_slowly(reader, &mut element)
}

// Refuses the next element, whose tag has the word `actual`, because its tag is not `expected`; if
// that is the word of no tag, the reader fails.
#[cold]
#[inline(never)]
pub(crate) fn refuse_tag(reader: &mut DerReader<'_>, expected: u64, actual: u64) -> DerError
    ensures same { Same (reader_state reader.old) (reader_state reader.new) }
    ensures refuses { RefusesTag expected actual (reader_state reader.old) result
        (reader_state reader.new) }
{
    if !is_tag(expected) {
        return reader.fail(ErrorKind::TagNumberInvalid.to_error());
    }
    unexpected(expected, actual, reader.position as u32)
}

// The error for an unexpected tag at a position, from the words of both tags.
fn unexpected(expected: u64, actual: u64, position: u32) -> DerError
    ensures { result ≡ unexpected_code expected actual position }
{
    DerError {
        kind: 17,
        has_position: true,
        expected: (expected % 256) as u8,
        actual: (actual % 256) as u8,
        position,
        first: (expected / 256 % (1 << 32)) as u32,
        second: (actual / 256 % (1 << 32)) as u32,
    }
}

/// Reads the next element into `element`. This element must have the tag word `tag` (see
/// [`DerElement::tag`]).
///
/// A call that fails leaves `element` unchanged. Fails with:
///
/// - the errors of [`der_read_element`];
/// - `TagUnexpected` at the position of `reader`, if the next element has another tag;
/// - `TagNumberInvalid` without a position, if `tag` is not a valid tag word and there is a next
///   element.
///
/// After `TagUnexpected`, `reader` is unchanged. After any other error, `reader` has failed.
#[inline(always)]
pub fn der_expect<'a>(
    reader: &mut DerReader<'a>,
    tag: u64,
    element: &mut DerElement<'a>,
) -> DerError
    ensures same { Same (reader_state reader.old) (reader_state reader.new) }
    ensures reads { ExpectsElement tag (reader_state reader.old) result element.old element.new
        (reader_state reader.new) }
{
    match meet(reader, tag, element) {
        Ok(met) => {
            if met == tag {
                DerError::NONE
            } else {
                refuse_tag(reader, tag, met)
            }
        }
        Err(error) => error,
    }
}

/// Reads the next element into `element` if it has the tag word `tag` (see [`DerElement::tag`]),
/// and sets `present` to true. If the next element has another tag, or if `reader` is at its end,
/// sets `present` to false, and leaves `reader` and `element` unchanged.
///
/// A call that fails leaves `element` and `present` unchanged, and `reader` has failed after it.
/// Fails with:
///
/// - the errors of [`der_read_element`]; a faulty header is an error even if it has another tag;
/// - `TagNumberInvalid` without a position, if `tag` is not a valid tag word and there is a next
///   element.
#[inline(always)]
pub fn der_optional<'a>(
    reader: &mut DerReader<'a>,
    tag: u64,
    element: &mut DerElement<'a>,
    present: &mut bool,
) -> DerError
    ensures same { Same (reader_state reader.old) (reader_state reader.new) }
    ensures finds { FindsOptional tag (reader_state reader.old) result element.old element.new
        present.old present.new (reader_state reader.new) }
{
    if !reader.failed && reader.position == reader.end as usize {
        *present = false;
        return DerError::NONE;
    }
    match meet(reader, tag, element) {
        Ok(met) => {
            if met == tag {
                *present = true;
                return DerError::NONE;
            }
            if !is_tag(tag) {
                return refuse_tag(reader, tag, met);
            }
            *present = false;
            DerError::NONE
        }
        Err(error) => error,
    }
}

// Reads the next element if it has this tag. Returns the tag of the next element as a word; nothing
// changes if it is another one.
#[inline(always)]
fn meet<'a>(
    reader: &mut DerReader<'a>,
    tag: u64,
    element: &mut DerElement<'a>,
) -> Result<u64, DerError>
    ensures same { Same (reader_state reader.old) (reader_state reader.new) }
    ensures meets { MeetsElement tag (reader_state reader.old) result element.old element.new
        (reader_state reader.new) }
{
    if let Some(next) = short_element(reader) {
        let met = next.first as u64;
        if met != tag {
            return Ok(met);
        }
        *element = short_value(reader.octets, reader.position as u32, next);
        reader.position = next.to;
        return Ok(tag);
    }
    meet_slowly(reader, tag, element)
}

// Reads an element with any header if it has this tag. This is an inlined function, as is
// `read_slowly`.
#[inline(always)]
fn meet_slowly<'a>(
    reader: &mut DerReader<'a>,
    tag: u64,
    element: &mut DerElement<'a>,
) -> Result<u64, DerError>
    ensures same { Same (reader_state reader.old) (reader_state reader.new) }
    ensures meets { MeetsElement tag (reader_state reader.old) result element.old element.new
        (reader_state reader.new) }
{
    meet_generally(reader, tag, element)
}

// Reads an element with any header if it has this tag, and reports each error.
#[inline(never)]
fn meet_generally<'a>(
    reader: &mut DerReader<'a>,
    tag: u64,
    element: &mut DerElement<'a>,
) -> Result<u64, DerError>
    ensures same { Same (reader_state reader.old) (reader_state reader.new) }
    ensures meets { MeetsElement tag (reader_state reader.old) result element.old element.new
        (reader_state reader.new) }
{
    let start = reader.position;
    match decode_header(reader) {
        Ok(header) => {
            let met = word_of(header.tag());
            if met != tag {
                reader.position = start;
                return Ok(met);
            }
            let error = read_element_contents(reader, start as u32, header, element);
            if error.kind == 0 { Ok(met) } else { Err(error) }
        }
        Err(error) => Err(reader.fail(error)),
    }
}
