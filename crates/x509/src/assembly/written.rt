//! A value written into a buffer.
ghost use Rattle.std.specs.Prelude.{◌≡◌, ◌^◌, ◌<◌, length, IfOk};
ghost use Rattle.der.specs.Encode.{SliceAnswer};
ghost use Rattle.der.specs.Prelude.{map_ok};

use der::{Encode, Error, SliceWriter};

// Writes the encoding of the value to the start of the buffer, and returns the octets written.
pub(crate) fn write_value<'b, T: Encode>(value: &T, buffer: &'b mut [u8]) -> Result<&'b [u8], Error>
    ensures ok { IfOk result (λ r. r.now ≡ T.encoding value.now) }
    ensures short { IfOk result (λ r. length r.now < 2 ^ 32) }
    ensures exact { SliceAnswer (T.encode_answers value.now) buffer.old
        (map_ok (λ r. r.now) result) }
{
    let mut writer = SliceWriter::new(buffer);
    value.encode(&mut writer)?;
    writer.finish()
}
