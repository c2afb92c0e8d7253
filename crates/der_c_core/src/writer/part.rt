//! Writing elements whose length is not known before their contents are written, for C.
ghost use Rattle.std.specs.Prelude.{◌≡◌, ◌+◌, ◌^◌, ◌<◌, ◌≤◌, length};
ghost use Rattle.der_core.specs.Writer.{failed_state};
ghost use Rattle.der_c_core.specs.CWriter.{writer_state, KeepsOpen};
ghost use Rattle.der_c_core.specs.ErrorCode.{unbalanced_code};
ghost use Rattle.der_c_core.specs.Part.{BeginsElement, EndsElement, FinishesWriting, IsMoved, put_state};

use crate::error::{DerError, c_error};
use crate::mark::DerMark;
use crate::tag::tag_of_word;
use crate::writer::calls::{encode_header, refuse};
use crate::writer::short::write_short;
use crate::writer::{DerWriter, refusal};
use der_base::{ErrorKind, Length};
use der_core::Encode;

/// Begins an element with the tag word `tag` (see `DerElement::tag`). Writes its header, with one
/// octet reserved for the length, and sets `mark` to the position at which its contents begin. All
/// octets that are written between this call and [`der_end`] are its contents.
///
/// A call that fails leaves `mark` unchanged, and `writer` has failed after it. Fails with the
/// errors of [`der_write_header`](crate::der_write_header).
#[inline(always)]
pub fn der_begin(writer: &mut DerWriter<'_>, tag: u64, mark: &mut DerMark) -> DerError
    ensures { BeginsElement tag writer.old result mark.old mark.new writer.new }
{
    if write_short(writer, tag, 0) {
        open_element(writer, mark);
        return DerError::NONE;
    }
    begin_slowly(writer, tag, mark)
}

// Begins an element with any tag.
#[inline(never)]
fn begin_slowly(writer: &mut DerWriter<'_>, tag: u64, mark: &mut DerMark) -> DerError
    ensures { BeginsElement tag writer.old result mark.old mark.new writer.new }
{
    let Some(tag) = tag_of_word(tag) else {
        return refuse(writer, ErrorKind::TagNumberInvalid);
    };
    match encode_header(writer, tag, 0) {
        Ok(()) => {
            open_element(writer, mark);
            DerError::NONE
        }
        Err(error) => c_error(error),
    }
}

// Opens an element whose contents begin at the position of `writer`.
#[inline(always)]
fn open_element(writer: &mut DerWriter<'_>, mark: &mut DerMark)
    ensures same { writer_state writer.new ≡ writer_state writer.old }
    ensures position { writer.new.position ≡ writer.old.position }
    ensures start { mark.new.start ≡ writer.old.position }
    ensures outer { mark.new.outer ≡ writer.old.innermost }
    ensures innermost { writer.new.innermost ≡ writer.old.position }
{
    *mark = DerMark {
        start: writer.position,
        outer: writer.innermost,
    };
    writer.innermost = writer.position;
}

/// Ends the element that `mark` marks, which must be the innermost open element. Writes the length
/// of the contents into the octet just before them. If the contents have 128 octets or more, their
/// length needs more octets, and the contents are moved to make space.
///
/// A call that fails moves and writes nothing, and `writer` has failed after it. Fails with:
///
/// - `Failed` at the position of `writer`, if `writer` had already failed;
/// - kind 23 (`DER_UNBALANCED`) at the position of `writer`, if the element is not the innermost
///   open element;
/// - the errors `Overlength` and `Overflow` of [`der_write`](crate::der_write), if the length needs
///   more octets and there is no space for them.
#[inline(always)]
pub fn der_end(writer: &mut DerWriter<'_>, mark: &DerMark) -> DerError
    ensures { EndsElement mark.now writer.old result writer.new }
{
    if writer.failed {
        return c_error(refusal(true, writer.position as u32, 0));
    }
    let start = mark.start;
    if start != writer.innermost || start == 0 || start > writer.position {
        return unbalanced(writer);
    }
    let count = (writer.position - start) as u32;
    let mut space = [0u8; 5];
    let Ok(length) = Length::new(count).encode_to_slice(&mut space) else {
        return refuse(writer, ErrorKind::Overlength);
    };
    let more = length.len() - 1;
    let stop = writer.octets.len().min(u32::MAX as usize);
    if more > stop - writer.position {
        writer.failed = true;
        return c_error(refusal(false, writer.position as u32, more));
    }
    put_length(writer, start, length);
    writer.innermost = mark.outer;
    DerError::NONE
}

// Fails because an element is ended that is not the innermost open element.
#[cold]
#[inline(never)]
fn unbalanced(writer: &mut DerWriter<'_>) -> DerError
    ensures reported { result ≡ unbalanced_code writer.old.position }
    ensures leaves { writer_state writer.new ≡ failed_state (writer_state writer.old) }
    ensures keeps_open { KeepsOpen writer.old writer.new }
{
    writer.failed = true;
    DerError::unbalanced(writer.position as u32)
}

/// Succeeds if `writer` has not failed and no element is open.
///
/// The position of each error is the number of octets written. Fails with:
///
/// - `Failed`, if `writer` has failed;
/// - kind 23 (`DER_UNBALANCED`), if an element was begun and not ended.
#[inline(always)]
pub fn der_writer_finish(writer: &DerWriter<'_>) -> DerError
    ensures { FinishesWriting writer.now result }
{
    if writer.failed {
        return c_error(ErrorKind::Failed.at(Length::new(writer.position as u32)));
    }
    if writer.innermost != 0 {
        return DerError::unbalanced(writer.position as u32);
    }
    DerError::NONE
}

/// Makes `writer` fail: every later call with `writer` fails with `Failed`. The octets that were
/// written remain.
#[inline(always)]
pub fn der_writer_fail(writer: &mut DerWriter<'_>)
    ensures fails { writer_state writer.new ≡ failed_state (writer_state writer.old) }
    ensures keeps_open { KeepsOpen writer.old writer.new }
{
    writer.failed = true;
}

// Puts a length in place of the octet before the contents.
#[inline(always)]
fn put_length(writer: &mut DerWriter<'_>, start: usize, octets: &[u8])
    requires begun { 1 ≤ start }
    requires written { start ≤ writer.old.position }
    requires some { 1 ≤ length octets.now }
    requires space { writer.old.position + length octets.now ≤ length writer.old.octets.now + 1 }
    requires countable { writer.old.position + length octets.now < 2 ^ 32 + 1 }
    ensures put { writer_state writer.new ≡ put_state start octets.now (writer_state writer.old) }
    ensures keeps_open { KeepsOpen writer.old writer.new }
{
    let more = octets.len() - 1;
    move_contents(writer.octets, start, writer.position, more);
    writer.octets[start - 1..start + more].copy_from_slice(octets);
    writer.position += more;
}

// Moves the contents, which end at `position`, by `more` octets.
#[inline(always)]
fn move_contents(octets: &mut [u8], start: usize, position: usize, more: usize)
    requires begun { 1 ≤ start }
    requires written { start ≤ position }
    requires space { position + more ≤ length octets.old }
    ensures len { length octets.new ≡ length octets.old }
    ensures moved { IsMoved start position more octets.old octets.new }
{
    if more == 0 {
        return;
    }
    octets.copy_within(start..position, start + more);
}
