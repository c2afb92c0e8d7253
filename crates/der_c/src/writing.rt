//! Writing, and sets that are sorted, for C.
//!
//! Written by tools/c_interface: change the crates that der_c uses instead.
ghost use Rattle.der_c_core.specs.CWriter.{KeepsOpen, writer_state};
ghost use Rattle.der_c_core.specs.JoinedSpans.{joined_spans};
ghost use Rattle.der_c_core.specs.Part.{BeginsElement, EndsElement, FinishesWriting};
ghost use Rattle.der_c_core.specs.SetOrder.{SpansAscend};
ghost use Rattle.der_c_core.specs.WriterCalls.{Measures, WritesElement, WritesHeader, WritesOctets};
ghost use Rattle.der_core.specs.Writer.{failed_state, fresh_state};
ghost use Rattle.std.specs.Prelude.{IsPermutation, length, ◌≡◌};

use der_c_core::{DerError, DerMark, DerSpan, DerWriter};

/// Makes `writer` a writer into the buffer `octets`, from the start of the buffer. `writer` writes
/// at most 4294967295 octets, even if the buffer has more.
#[unsafe(no_mangle)]
pub extern "C" fn der_writer_init<'a>(octets: &'a mut [u8], writer: &mut DerWriter<'a>)
    ensures fresh { writer_state writer.new ≡ fresh_state octets.old octets.entry.ghost_name }
    ensures none_open { writer.new.innermost ≡ 0 }
{
    der_c_core::der_writer_init(octets, writer)
}

/// The number of octets that `writer` has written.
#[unsafe(no_mangle)]
pub extern "C" fn der_written(writer: &DerWriter<'_>) -> usize
    ensures { result ≡ length (writer_state writer.now).octets }
{
    der_c_core::der_written(writer)
}

/// Succeeds if `writer` has not failed and no element is open.
///
/// The position of each error is the number of octets written. Fails with:
///
/// - `Failed`, if `writer` has failed;
/// - kind 23 (`DER_UNBALANCED`), if an element was begun and not ended.
#[unsafe(no_mangle)]
pub extern "C" fn der_writer_finish(writer: &DerWriter<'_>) -> DerError
    ensures { FinishesWriting writer.now result }
{
    der_c_core::der_writer_finish(writer)
}

/// Makes `writer` fail: every later call with `writer` fails with `Failed`. The octets that were
/// written remain.
#[unsafe(no_mangle)]
pub extern "C" fn der_writer_fail(writer: &mut DerWriter<'_>)
    ensures fails { writer_state writer.new ≡ failed_state (writer_state writer.old) }
    ensures keeps_open { KeepsOpen writer.old writer.new }
{
    der_c_core::der_writer_fail(writer)
}

/// Writes `octets` unchanged.
///
/// A call that fails writes nothing, and `writer` has failed after it. Fails with:
///
/// - `Failed` at the position of `writer`, if `writer` had already failed;
/// - `Overflow` at the position of `writer`, if `octets` would end after position 4294967295;
/// - `Overlength` at the position at which `octets` would end, if the buffer has too little space.
#[unsafe(no_mangle)]
pub extern "C" fn der_write(writer: &mut DerWriter<'_>, octets: &[u8]) -> DerError
    ensures writes { WritesOctets octets.now (writer_state writer.old) result (writer_state writer.new) }
    ensures keeps_open { KeepsOpen writer.old writer.new }
{
    der_c_core::der_write(writer, octets)
}

/// Writes the header of an element. The element has the tag word `tag` and `length` octets of
/// contents. The tag word is the first octet of the identifier, plus 256 times the tag number if
/// the number is 31 or more.
///
/// After a call that fails, `writer` has failed. A call that fails may have written the first
/// octets of the header, which remain. Fails with:
///
/// - `TagNumberInvalid` without a position, if `tag` is not a valid tag word and `writer` had not
///   failed;
/// - the errors of `der_write`.
#[unsafe(no_mangle)]
pub extern "C" fn der_write_header(writer: &mut DerWriter<'_>, tag: u64, length: u32) -> DerError
    ensures writes { WritesHeader tag length (writer_state writer.old) result (writer_state writer.new) }
    ensures keeps_open { KeepsOpen writer.old writer.new }
{
    der_c_core::der_write_header(writer, tag, length)
}

/// Writes an element: a header with the tag word `tag` (see `der_write_header`), and then
/// `contents`.
///
/// After a call that fails, `writer` has failed. A call that fails may have written the header or
/// its first octets, which remain. Fails with:
///
/// - `Overflow` without a position, if there are more than 4294967295 octets of contents and
///   `writer` had not failed;
/// - the errors of `der_write_header` and `der_write`.
#[unsafe(no_mangle)]
pub extern "C" fn der_write_element(
    writer: &mut DerWriter<'_>,
    tag: u64,
    contents: &[u8],
) -> DerError
    ensures writes { WritesElement tag contents.now (writer_state writer.old) result
        (writer_state writer.new) }
    ensures keeps_open { KeepsOpen writer.old writer.new }
{
    der_c_core::der_write_element(writer, tag, contents)
}

/// Writes an element: a header with the tag word `tag` (see
/// `der_write_header`), and then the octets of all `parts`, one after
/// the other, as its contents.
///
/// After a call that fails, `writer` has failed. A call that fails may have written the header or
/// its first octets, which remain. Fails with the errors of
/// `der_write_element`.
#[unsafe(no_mangle)]
pub extern "C" fn der_write_parts(
    writer: &mut DerWriter<'_>,
    tag: u64,
    parts: &[DerSpan<'_>],
) -> DerError
    ensures writes { WritesElement tag (joined_spans parts.now) (writer_state writer.old) result
        (writer_state writer.new) }
    ensures keeps_open { KeepsOpen writer.old writer.new }
{
    der_c_core::der_write_parts(writer, tag, parts)
}

/// Sets `count` to the number of octets of an element, header and contents. The element has the tag
/// word `tag` and `length` octets of contents. The tag word is the first octet of the identifier,
/// plus 256 times the tag number if the number is 31 or more.
///
/// A call that fails leaves `count` unchanged. Fails with:
///
/// - `TagNumberInvalid` without a position, if `tag` is not a valid tag word;
/// - `Overflow` without a position, if the element would have more than 4294967295 octets.
#[unsafe(no_mangle)]
pub extern "C" fn der_element_length(tag: u64, length: u32, count: &mut u32) -> DerError
    ensures { Measures tag length result count.old count.new }
{
    der_c_core::der_element_length(tag, length, count)
}

/// Begins an element with the tag word `tag` (see `DerElement::tag`). Writes its header, with one
/// octet reserved for the length, and sets `mark` to the position at which its contents begin. All
/// octets that are written between this call and `der_end` are its contents.
///
/// A call that fails leaves `mark` unchanged, and `writer` has failed after it. Fails with the
/// errors of `der_write_header`.
#[unsafe(no_mangle)]
pub extern "C" fn der_begin(writer: &mut DerWriter<'_>, tag: u64, mark: &mut DerMark) -> DerError
    ensures { BeginsElement tag writer.old result mark.old mark.new writer.new }
{
    der_c_core::der_begin(writer, tag, mark)
}

/// Ends the element that `mark` marks, which must be the innermost open element. Writes the length
/// of the contents into the octet just before them. If the contents have 128 octets or more, their
/// length needs more octets, and the contents are moved to make space.
///
/// A call that fails moves and writes nothing, and `writer` has failed after it. Fails with:
///
/// - `Failed` at the position of `writer`, if `writer` had already failed;
/// - kind 23 (`DER_UNBALANCED`) at the position of `writer`, if the element is not the innermost
///   open element;
/// - the errors `Overlength` and `Overflow` of `der_write`, if the length needs
///   more octets and there is no space for them.
#[unsafe(no_mangle)]
pub extern "C" fn der_end(writer: &mut DerWriter<'_>, mark: &DerMark) -> DerError
    ensures { EndsElement mark.now writer.old result writer.new }
{
    der_c_core::der_end(writer, mark)
}

/// Sorts `elements` in ascending order of their octets. This is the order of a SET OF (X.690 11.6).
/// Each span must be the encoding of one element; this is not checked. Equal elements are all kept.
///
/// Cannot fail. Moves only the spans, not the octets that the spans point to.
#[unsafe(no_mangle)]
pub extern "C" fn der_sort_set(elements: &mut [DerSpan<'_>])
    ensures same { IsPermutation elements.old elements.new }
    ensures count { length elements.new ≡ length elements.old }
    ensures sorted { SpansAscend elements.new }
{
    der_c_core::der_sort_set(elements)
}
