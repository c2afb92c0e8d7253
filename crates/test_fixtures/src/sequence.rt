//! What the contract of `SliceWriter::sequence` states if its closure encodes one value of any
//! type.
ghost use Rattle.std.specs.Prelude.{◌≡◌, ◌+◌, ◌≤◌, ◌++◌, false, length, OnOk, IsOk};
ghost use Rattle.der.specs.Prelude.{number, header_octets, Sequence, Keeps, Appends, slice_writer_state};
ghost use Rattle.der.specs.WrittenSequence.{headed_state};

use der::{Encode, Error, Length, SliceWriter, Writer};

/// Writes a SEQUENCE whose contents are the encoding of `value`. Fails if the encoding does not
/// have `len` octets.
pub fn encode_in_sequence<T: Encode>(
    writer: &mut SliceWriter<'_>,
    len: Length,
    value: &T,
) -> Result<(), Error>
    ensures kept { Keeps (slice_writer_state writer.old) (slice_writer_state writer.new) }
    ensures ok { Appends (slice_writer_state writer.old)
        (header_octets Sequence (number len) ++ T.encoding value.now) result
        (slice_writer_state writer.new) }
    ensures fills { OnOk result (length (T.encoding value.now) ≡ number len) }
    ensures succeeds { T.encodable value.now → length (T.encoding value.now) ≡ number len
        → (slice_writer_state writer.old).failed ≡ false
        → length (headed_state (slice_writer_state writer.old) (number len)).octets + number len
        ≤ (slice_writer_state writer.old).stop → IsOk result }
{
    match writer.sequence(len, |w| value.encode(w)) {
        Ok(()) => Ok(()),
        Err(error) => Err(error),
    }
}
