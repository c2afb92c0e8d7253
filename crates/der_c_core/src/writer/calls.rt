//! Making a writer, and writing with it, for C.
ghost use Rattle.std.specs.Prelude.{◌≡◌, length};
ghost use Rattle.der_core.specs.Writer.{fresh_state, Writes};
ghost use Rattle.der_core.specs.Encode.{header_outcome};
ghost use Rattle.der_c_core.specs.CReader.{answer_code};
ghost use Rattle.der_c_core.specs.CWriter.{writer_state, KeepsOpen};
ghost use Rattle.der_c_core.specs.WriterCalls.{RefusesBy, WritesOctets, WritesHeader, WritesElement, Measures};

use crate::error::{DerError, c_error};
use crate::tag::tag_of_word;
use crate::writer::short::write_short;
use crate::writer::{DerWriter, refusal};
use der_base::{Error, ErrorKind, Length, Tag};
use der_core::{Encode, Header, Writer};

/// Makes `writer` a writer into the buffer `octets`, from the start of the buffer. `writer` writes
/// at most 4294967295 octets, even if the buffer has more.
#[inline(always)]
pub fn der_writer_init<'a>(octets: &'a mut [u8], writer: &mut DerWriter<'a>)
    ensures fresh { writer_state writer.new ≡ fresh_state octets.old octets.entry.ghost_name }
    ensures none_open { writer.new.innermost ≡ 0 }
{
    *writer = DerWriter {
        octets,
        position: 0,
        innermost: 0,
        failed: false,
    };
}

/// The number of octets that `writer` has written.
#[inline(always)]
pub fn der_written(writer: &DerWriter<'_>) -> usize
    ensures { result ≡ length (writer_state writer.now).octets }
{
    writer.position
}

/// Writes `octets` unchanged.
///
/// A call that fails writes nothing, and `writer` has failed after it. Fails with:
///
/// - `Failed` at the position of `writer`, if `writer` had already failed;
/// - `Overflow` at the position of `writer`, if `octets` would end after position 4294967295;
/// - `Overlength` at the position at which `octets` would end, if the buffer has too little space.
#[inline(always)]
pub fn der_write(writer: &mut DerWriter<'_>, octets: &[u8]) -> DerError
    ensures writes { WritesOctets octets.now (writer_state writer.old) result (writer_state writer.new) }
    ensures keeps_open { KeepsOpen writer.old writer.new }
{
    code(writer.write(octets))
}

/// Writes the header of an element. The element has the tag word `tag` and `length` octets of
/// contents. The tag word is the first octet of the identifier, plus 256 times the tag number if
/// the number is 31 or more.
///
/// After a call that fails, `writer` has failed. A call that fails may have written the first
/// octets of the header, which remain. Fails with:
///
/// - `TagNumberInvalid` without a position, if `tag` is not a valid tag word and `writer` had not
///   failed;
/// - the errors of [`der_write`].
#[inline(always)]
pub fn der_write_header(writer: &mut DerWriter<'_>, tag: u64, length: u32) -> DerError
    ensures writes { WritesHeader tag length (writer_state writer.old) result (writer_state writer.new) }
    ensures keeps_open { KeepsOpen writer.old writer.new }
{
    if write_short(writer, tag, length as usize) {
        return DerError::NONE;
    }
    header_slowly(writer, tag, length)
}

// Writes the header of any tag and length.
#[inline(never)]
fn header_slowly(writer: &mut DerWriter<'_>, tag: u64, length: u32) -> DerError
    ensures writes { WritesHeader tag length (writer_state writer.old) result (writer_state writer.new) }
    ensures keeps_open { KeepsOpen writer.old writer.new }
{
    let Some(tag) = tag_of_word(tag) else {
        return refuse(writer, ErrorKind::TagNumberInvalid);
    };
    code(encode_header(writer, tag, length))
}

// Writes the header of any tag and length. The open elements are set again, since nothing says that
// an encoder keeps them.
#[inline(always)]
pub(crate) fn encode_header(writer: &mut DerWriter<'_>, tag: Tag, length: u32) -> Result<(), Error>
    ensures writes { Writes (header_outcome tag length (writer_state writer.old)) result
        (writer_state writer.new) }
    ensures keeps_open { KeepsOpen writer.old writer.new }
{
    let innermost = writer.innermost;
    let header = Header::new(tag, Length::new(length));
    let answer = header.encode(writer);
    writer.innermost = innermost;
    answer
}

/// Writes an element: a header with the tag word `tag` (see [`der_write_header`]), and then
/// `contents`.
///
/// After a call that fails, `writer` has failed. A call that fails may have written the header or
/// its first octets, which remain. Fails with:
///
/// - `Overflow` without a position, if there are more than 4294967295 octets of contents and
///   `writer` had not failed;
/// - the errors of [`der_write_header`] and [`der_write`].
#[inline(always)]
pub fn der_write_element(writer: &mut DerWriter<'_>, tag: u64, contents: &[u8]) -> DerError
    ensures writes { WritesElement tag contents.now (writer_state writer.old) result
        (writer_state writer.new) }
    ensures keeps_open { KeepsOpen writer.old writer.new }
{
    if write_short(writer, tag, contents.len()) {
        return code(writer.write(contents));
    }
    element_slowly(writer, tag, contents)
}

// Writes an element with any tag and any contents.
#[inline(never)]
fn element_slowly(writer: &mut DerWriter<'_>, tag: u64, contents: &[u8]) -> DerError
    ensures writes { WritesElement tag contents.now (writer_state writer.old) result
        (writer_state writer.new) }
    ensures keeps_open { KeepsOpen writer.old writer.new }
{
    if contents.len() > u32::MAX as usize {
        return refuse(writer, ErrorKind::Overflow);
    }
    let Some(tag) = tag_of_word(tag) else {
        return refuse(writer, ErrorKind::TagNumberInvalid);
    };
    match encode_header(writer, tag, contents.len() as u32) {
        Ok(()) => code(writer.write(contents)),
        Err(error) => c_error(error),
    }
}

/// Sets `count` to the number of octets of an element, header and contents. The element has the tag
/// word `tag` and `length` octets of contents. The tag word is the first octet of the identifier,
/// plus 256 times the tag number if the number is 31 or more.
///
/// A call that fails leaves `count` unchanged. Fails with:
///
/// - `TagNumberInvalid` without a position, if `tag` is not a valid tag word;
/// - `Overflow` without a position, if the element would have more than 4294967295 octets.
#[inline(always)]
pub fn der_element_length(tag: u64, length: u32, count: &mut u32) -> DerError
    ensures { Measures tag length result count.old count.new }
{
    let Some(tag) = tag_of_word(tag) else {
        return c_error(ErrorKind::TagNumberInvalid.to_error());
    };
    match Length::new(length).for_tlv(tag) {
        Ok(whole) => {
            *count = u32::from(whole);
            DerError::NONE
        }
        Err(error) => c_error(error),
    }
}

// The C form of a result.
#[inline(always)]
pub(crate) fn code(answer: Result<(), Error>) -> DerError
    ensures { result ≡ answer_code answer }
{
    match answer {
        Ok(()) => DerError::NONE,
        Err(error) => c_error(error),
    }
}

// Fails with a kind without a position, or with `Failed` if the writer has failed already; the writer
// has failed then.
#[cold]
#[inline(never)]
pub(crate) fn refuse(writer: &mut DerWriter<'_>, kind: ErrorKind) -> DerError
    ensures refuses { RefusesBy kind (writer_state writer.old) result (writer_state writer.new) }
    ensures keeps_open { KeepsOpen writer.old writer.new }
{
    if writer.failed {
        return c_error(refusal(true, writer.position as u32, 0));
    }
    writer.failed = true;
    c_error(kind.to_error())
}
