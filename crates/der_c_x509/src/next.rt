//! Reading the next item of a list.
ghost use Rattle.std.specs.Prelude.{◌≡◌, false, IfOk};
ghost use Rattle.der.specs.Prelude.{Same, kind_of};
ghost use Rattle.der_core.specs.Decode.{Passes};
ghost use Rattle.der_asn1.specs.ListAnswers.{ItemAnswer};
ghost use Rattle.der_c_core.specs.CReader.{reader_state};
ghost use Rattle.der_c_x509.specs.Calls.{NextComplete, NextItem, is_unexpected_tag, refused_state};

use der::{Decode, Error, ErrorKind, Reader};
use der_c_core::{DerError, DerReader, located_error};
use std::alloc::Global;

// Reads an item. An error makes the reader fail, except `TagUnexpected`, which leaves it unchanged.
// Returns the error `Failed` if the type returns a value but leaves the reader failed.
#[inline(always)]
pub(crate) fn next_item<'a, T: Decode<DerReader<'a>, Error = Error>>(
    alloc: Global,
    reader: &mut DerReader<'a>,
) -> Result<T, DerError>
    ensures same { Same (reader_state reader.old) (reader_state reader.new) }
    ensures reads { NextItem T.is_next (ItemAnswer (λ e f. f ≡ e) T.decode_answers)
        (reader_state reader.old) result (reader_state reader.new) }
    ensures complete { T.allocates ≡ false → NextComplete T.is_next T.decode_levels
        (reader_state reader.old) result (reader_state reader.new) }
{
    let before = reader.fork();
    match decode_item::<T>(alloc, reader) {
        Ok(value) => Ok(value),
        Err(error) => {
            let code = located_error(before.fork(), error);
            leave(reader, before, error);
            Err(code)
        }
    }
}

// Leaves the reader as an error leaves it. The reader was `before` before the call that failed.
fn leave<'a>(reader: &mut DerReader<'a>, before: DerReader<'a>, error: Error)
    ensures { reader_state reader.new
        ≡ refused_state (reader_state before.entry) error (reader_state reader.old) }
{
    if is_unexpected_tag(error) {
        *reader = before;
    } else {
        let _failed = reader.error(ErrorKind::Failed);
    }
}

// Whether an error is an unexpected tag.
fn is_unexpected_tag(error: Error) -> bool
    ensures { result ≡ is_unexpected_tag (kind_of error) }
{
    matches!(error.kind(), ErrorKind::TagUnexpected { .. })
}

// Decodes an item.
#[inline(always)]
fn decode_item<'a, T: Decode<DerReader<'a>, Error = Error>>(
    alloc: Global,
    reader: &mut DerReader<'a>,
) -> Result<T, Error>
    ensures same { Same (reader_state reader.old) (reader_state reader.new) }
    ensures ok { IfOk result (λ v. Passes (T.is_next v) (reader_state reader.old)
        (reader_state reader.new)) }
    ensures exact { ItemAnswer (λ e f. f ≡ e) T.decode_answers (reader_state reader.old) result
        (reader_state reader.new) }
    ensures complete { T.allocates ≡ false → NextComplete T.is_next T.decode_levels
        (reader_state reader.old) result (reader_state reader.new) }
{
    let value = T::decode(alloc, reader)?;
    if reader.is_failed() {
        return Err(reader.error(ErrorKind::Failed));
    }
    Ok(value)
}
