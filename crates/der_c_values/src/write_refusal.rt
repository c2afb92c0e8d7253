//! Making a writer fail because an argument cannot be written.
ghost use Rattle.der_c_core.specs.CWriter.{KeepsOpen, writer_state};
ghost use Rattle.der_c_values.specs.WriteCalls.{RefusesNoValue, RefusesWrite};

use crate::refusal::{INVALID_TAG, value_error};
use der_c_core::{DerError, DerWriter, der_write, der_writer_fail, is_tag};

/// Makes `writer` fail, and writes nothing. Returns `error`. Returns `Failed` instead if `writer`
/// had already failed.
#[cold]
#[inline(never)]
pub fn refuse_write(writer: &mut DerWriter<'_>, error: DerError) -> DerError
    ensures writes { RefusesWrite error (writer_state writer.old) result (writer_state writer.new) }
    ensures keeps_open { KeepsOpen writer.old writer.new }
{
    let earlier = der_write(writer, &[]);
    if earlier.kind != 0 {
        return earlier;
    }
    der_writer_fail(writer);
    error
}

/// Makes `writer` fail because an argument is not a value of the type that is written. Writes
/// nothing. Returns:
///
/// - `Failed`, if `writer` had already failed;
/// - otherwise `TagNumberInvalid`, if `tag` is not a valid tag word;
/// - otherwise `Value` with the tag `tag`.
#[cold]
#[inline(never)]
pub fn refuse_no_value(writer: &mut DerWriter<'_>, tag: u64) -> DerError
    ensures writes { RefusesNoValue tag (writer_state writer.old) result (writer_state writer.new) }
    ensures keeps_open { KeepsOpen writer.old writer.new }
{
    if is_tag(tag) {
        refuse_write(writer, value_error(tag))
    } else {
        refuse_write(writer, INVALID_TAG)
    }
}
