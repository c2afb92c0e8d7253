//! Converting errors of decoding values, for C. If the contents of an element are cut, the error
//! says where the contents would end.
ghost use Rattle.std.specs.Prelude.{◌≡◌, IfSome, IfNone};
ghost use Rattle.der_base.specs.Error.{kind_of};
ghost use Rattle.der_c_core.specs.CReader.{reader_state};
ghost use Rattle.der_c_core.specs.Located.{IsCut, IsNotCut, Locates, LocatesIn, is_incomplete};

use crate::error::{DerError, c_error};
use crate::reader::DerReader;
use der_base::{Error, ErrorKind};
use der_core::{Reader, decode_header};

/// Converts `error` to a [`DerError`]. `error` is the error of decoding a value at the position of
/// `reader`.
///
/// One case is special: `error` is `Incomplete`, and the next element has a complete header but not
/// all its contents. Then the result is `Incomplete` at the start of the contents, and its `first`
/// is the position at which the contents would end. In `error` itself, `first` is only one more
/// than the number of octets that are there.
#[cold]
pub fn located_error(reader: DerReader<'_>, error: Error) -> DerError
    ensures { Locates (reader_state reader.entry) error result }
{
    if !says_incomplete(error) {
        return c_error(error);
    }
    match missing_contents(reader) {
        Some(missing) => c_error(missing),
        None => c_error(error),
    }
}

/// Converts `error` to a [`DerError`], as [`located_error`] does. `error` is the error of decoding
/// one value from `octets` under the Distinguished Encoding Rules.
#[cold]
pub fn located_in(octets: &[u8], error: Error) -> DerError
    ensures { LocatesIn octets.now error result }
{
    if octets.len() > u32::MAX as usize {
        return c_error(error);
    }
    let reader = DerReader {
        octets,
        position: 0,
        end: octets.len() as u32,
        depth: 0,
        ber: false,
        failed: false,
    };
    located_error(reader, error)
}

// Whether an error says that octets are missing.
fn says_incomplete(error: Error) -> bool
    ensures { result ≡ is_incomplete (kind_of error) }
{
    matches!(error.kind(), ErrorKind::Incomplete { .. })
}

// The error of the next element if its contents are cut.
fn missing_contents(mut reader: DerReader<'_>) -> Option<Error>
    ensures cut { IfSome result (IsCut (reader_state reader.entry)) }
    ensures not_cut { IfNone result (IsNotCut (reader_state reader.entry)) }
{
    let header = match decode_header(&mut reader) {
        Ok(header) => header,
        Err(_) => return None,
    };
    match reader.read_slice(header.length()) {
        Ok(_) => None,
        Err(missing) => {
            if says_incomplete(missing) {
                Some(missing)
            } else {
                None
            }
        }
    }
}
