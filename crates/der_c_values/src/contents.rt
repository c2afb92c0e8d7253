//! Reading the contents of the next element.
ghost use Rattle.std.specs.Prelude.{◌≡◌, IfOk, IfErr};
ghost use Rattle.der_core.specs.ReaderState.{Same};
ghost use Rattle.der_c_core.specs.CReader.{reader_state};
ghost use Rattle.der_c_values.specs.ValueCalls.{ReadsOctets, RefusesElement};

use der_c_core::{DerElement, DerError, DerReader, der_expect};

/// Reads the next element, which must have the tag word `tag`, and returns its contents. Fails with
/// the errors of [`der_expect`].
#[inline(always)]
pub(crate) fn read_octets<'a>(reader: &mut DerReader<'a>, tag: u64) -> Result<&'a [u8], DerError>
    ensures same { Same (reader_state reader.old) (reader_state reader.new) }
    ensures ok { IfOk result (λ octets. ReadsOctets tag (reader_state reader.old) octets.now
        (reader_state reader.new)) }
    ensures refused { IfErr result (λ e. RefusesElement tag (reader_state reader.old) e
        (reader_state reader.new)) }
{
    let mut element = DerElement {
        contents: &[],
        tag: 0,
        start: 0,
        contents_start: 0,
        constructed: false,
        indefinite: false,
    };
    let error = der_expect(reader, tag, &mut element);
    if error.kind == 0 {
        Ok(element.contents)
    } else {
        Err(error)
    }
}
