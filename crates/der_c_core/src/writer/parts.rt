//! Writing elements whose contents are in several spans of octets, for C.
ghost use Rattle.std.specs.Prelude.{◌≡◌, ◌^◌, ◌≤◌, None, IfSome, length};
ghost use Rattle.der_core.specs.Writer.{Writes, write_outcome};
ghost use Rattle.der_c_core.specs.CWriter.{writer_state, KeepsOpen};
ghost use Rattle.der_c_core.specs.JoinedSpans.{joined_spans};
ghost use Rattle.der_c_core.specs.WriterCalls.{WritesElement};

use crate::error::{DerError, c_error};
use crate::span::DerSpan;
use crate::tag::tag_of_word;
use crate::writer::calls::{code, encode_header, refuse};
use crate::writer::{DerWriter, refusal};
use der_base::{Error, ErrorKind};
use der_core::Writer;

/// Writes an element: a header with the tag word `tag` (see
/// [`der_write_header`](crate::der_write_header)), and then the octets of all `parts`, one after
/// the other, as its contents.
///
/// After a call that fails, `writer` has failed. A call that fails may have written the header or
/// its first octets, which remain. Fails with the errors of
/// [`der_write_element`](crate::der_write_element).
pub fn der_write_parts(writer: &mut DerWriter<'_>, tag: u64, parts: &[DerSpan<'_>]) -> DerError
    ensures writes { WritesElement tag (joined_spans parts.now) (writer_state writer.old) result
        (writer_state writer.new) }
    ensures keeps_open { KeepsOpen writer.old writer.new }
{
    let Some(count) = joined_length(parts) else {
        return refuse(writer, ErrorKind::Overflow);
    };
    let Some(tag) = tag_of_word(tag) else {
        return refuse(writer, ErrorKind::TagNumberInvalid);
    };
    match encode_header(writer, tag, count) {
        Ok(()) => code(write_joined(writer, parts, count as usize)),
        Err(error) => c_error(error),
    }
}

// How many octets the parts have together; `None` if a length cannot count them.
fn joined_length(parts: &[DerSpan<'_>]) -> Option<u32>
    ensures some { IfSome result (λ n. n ≡ length (joined_spans parts.now)) }
    ensures none { result ≡ None → 2 ^ 32 ≤ length (joined_spans parts.now) }
{
    let mut count = 0u32;
    'parts: for part in parts {
        let more = part.octets.len();
        if more > (u32::MAX - count) as usize {
            return None;
        }
        count += more as u32;
    }
    Some(count)
}

// Writes the octets of the parts, which are this many, as one write of all of them does.
fn write_joined(
    writer: &mut DerWriter<'_>,
    parts: &[DerSpan<'_>],
    count: usize,
) -> Result<(), Error>
    requires { count ≡ length (joined_spans parts.now) }
    ensures writes { Writes (write_outcome (joined_spans parts.now) (writer_state writer.old)) result
        (writer_state writer.new) }
    ensures keeps_open { KeepsOpen writer.old writer.new }
{
    let stop = writer.octets.len().min(u32::MAX as usize);
    if writer.failed || count > stop - writer.position {
        let failed = writer.failed;
        writer.failed = true;
        return Err(refusal(failed, writer.position as u32, count));
    }
    'parts: for part in parts {
        writer.write(part.octets)?;
    }
    Ok(())
}
