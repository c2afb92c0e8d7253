//! Making and finishing a reader, for C.
ghost use Rattle.std.specs.Prelude.{◌≡◌, ◌^◌, ◌<◌, ◌≤◌, ◌↔◌, IsTrue, Ok, Err, Result as AResult};
ghost use Rattle.std.specs.Prelude.{length};
ghost use Rattle.der_base.specs.Error.{error_of_kind};
ghost use Rattle.der_base.specs.declared.error.ErrorKind.TheVariants.{Overflow};
ghost use Rattle.der_core.specs.ReaderState.{initial_state};
ghost use Rattle.der_core.specs.Reader.{finish_answer};
ghost use Rattle.der_c_core.specs.ErrorCode.{no_error, error_code};
ghost use Rattle.der_c_core.specs.CReader.{reader_state, rules_of, answer_code};

use crate::error::{DerError, c_error};
use crate::reader::DerReader;
use der_base::ErrorKind;
use der_core::Reader;

/// Makes `reader` a reader of `octets`, from their start. If `ber` is true, the reader reads under
/// the Basic Encoding Rules, otherwise under the Distinguished Encoding Rules.
///
/// Fails with `Overflow` without a position if there are more than 4294967295 octets. `reader` is
/// unchanged after this error.
#[inline(always)]
pub fn der_reader_init<'a>(octets: &'a [u8], ber: bool, reader: &mut DerReader<'a>) -> DerError
    ensures made { length octets.now < 2 ^ 32
        → (result ≡ no_error)
        × (reader_state reader.new ≡ initial_state (rules_of ber) octets.now) }
    ensures refused { 2 ^ 32 ≤ length octets.now
        → (result ≡ error_code (error_of_kind Overflow)) × (reader.new ≡ reader.old) }
{
    if octets.len() > u32::MAX as usize {
        return c_error(ErrorKind::Overflow.to_error());
    }
    *reader = DerReader {
        octets,
        position: 0,
        end: octets.len() as u32,
        depth: 0,
        ber,
        failed: false,
    };
    DerError::NONE
}

/// Returns true if `reader` is at the end of its octets. It does not matter whether `reader` has
/// failed.
#[inline(always)]
pub fn der_is_finished(reader: &DerReader<'_>) -> bool
    ensures { IsTrue result ↔ ((reader_state reader.now).position ≡ (reader_state reader.now).end) }
{
    reader.position == reader.end as usize
}

/// The position of `reader`, in octets from the start of the input.
#[inline(always)]
pub fn der_position(reader: &DerReader<'_>) -> usize
    ensures { result ≡ (reader_state reader.now).position }
{
    reader.position
}

/// Succeeds if `reader` is at its end and has not failed. `reader` is unchanged.
///
/// Each error is at the position of `reader`. Fails with:
///
/// - `Failed`, if `reader` has failed;
/// - `TrailingData`, if octets are left.
#[inline(always)]
pub fn der_finish(reader: &DerReader<'_>) -> DerError
    ensures { result ≡ answer_code (finish_answer (reader_state reader.now)) }
{
    match reader.fork().finish() {
        Ok(()) => DerError::NONE,
        Err(error) => c_error(error),
    }
}
