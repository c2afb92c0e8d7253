//! The errors of the functions that read and write values.
ghost use Rattle.std.specs.Prelude.{◌≡◌};
ghost use Rattle.der_core.specs.ReaderState.{Same, stopped_state};
ghost use Rattle.der_c_core.specs.CReader.{reader_state};
ghost use Rattle.der_c_values.specs.ValueCalls.{value_code, value_code_at, RefusesType};

use der_base::ErrorKind;
use der_c_core::{DerError, DerReader, c_error};
use der_core::Reader;

/// The error `DateTime`, without a position.
pub(crate) const NO_TIME: DerError = DerError {
    kind: 1,
    ..DerError::NONE
};

/// The error `OidMalformed`, without a position.
pub(crate) const MALFORMED: DerError = DerError {
    kind: 9,
    ..DerError::NONE
};

/// The error `Overflow`, without a position.
pub(crate) const OVERFLOW: DerError = DerError {
    kind: 12,
    ..DerError::NONE
};

/// The error `Overlength`, without a position.
pub(crate) const OVERLENGTH: DerError = DerError {
    kind: 13,
    ..DerError::NONE
};

/// The error `TagNumberInvalid`, without a position.
pub(crate) const INVALID_TAG: DerError = DerError {
    kind: 16,
    ..DerError::NONE
};

/// Makes the error `Value` without a position. `tag` is a tag word (see `DerElement::tag`), and the
/// error names the tag that it stands for.
pub(crate) fn value_error(tag: u64) -> DerError
    ensures { result ≡ value_code tag }
{
    DerError {
        kind: 21,
        has_position: false,
        expected: 0,
        actual: (tag % 256) as u8,
        position: 0,
        first: 0,
        second: (tag / 256 % (1 << 32)) as u32,
    }
}

/// Makes `reader` fail, and returns the error `Value` at the position of `reader`. `tag` is a tag
/// word (see `DerElement::tag`), and the error names the tag that it stands for.
#[cold]
#[inline(never)]
pub(crate) fn refuse_value(reader: &mut DerReader<'_>, tag: u64) -> DerError
    ensures same { Same (reader_state reader.old) (reader_state reader.new) }
    ensures reported { result ≡ value_code_at tag (reader_state reader.old).position }
    ensures stopped { reader_state reader.new
        ≡ stopped_state (reader_state reader.old) (reader_state reader.old).position }
{
    let position = reader.position();
    let _ = reader.error(ErrorKind::Failed);
    DerError {
        has_position: true,
        position: u32::from(position),
        ..value_error(tag)
    }
}

/// Makes `reader` fail because the caller passed a type that the function does not read. Returns
/// `TagNumberInvalid` without a position. Returns `Failed` instead if `reader` had already failed.
#[cold]
#[inline(never)]
pub(crate) fn refuse_type(reader: &mut DerReader<'_>) -> DerError
    ensures same { Same (reader_state reader.old) (reader_state reader.new) }
    ensures refused { RefusesType (reader_state reader.old) result (reader_state reader.new) }
{
    let has_failed = reader.is_failed();
    let failed = reader.error(ErrorKind::Failed);
    c_error(if has_failed {
        failed
    } else {
        ErrorKind::TagNumberInvalid.to_error()
    })
}
