//! Writing of an OCTET STRING that is borrowed from the input.
ghost use Rattle.std.specs.Prelude.{◌≡◌, true};
ghost use Rattle.der.specs.Octets.{IsCounted, octets_size};
ghost use Rattle.der_segments.specs.Segmented.{SegmentedWritten, segmented_lawful, segmented_octets};
ghost use Rattle.std.proofs.Common.{arith};

use crate::segmented::Segmented;
use der::{EncodeValue, Error, Lawful, Length, Writer, WrittenValue};

impl<'a> WrittenValue for Segmented<'a> {
    ghost contents = { segmented_octets };

    ghost writable = { λ v. IsCounted (segmented_octets v) };
}

/// Writes the joined octets as the contents of a primitive encoding. The writer is called once for
/// each primitive segment.
///
/// # Errors
///
/// `value_len` never fails. `encode_value` returns the errors of [`Writer::write`] for the first
/// segment that cannot be written. The segments before that segment have been written then.
impl<'a> EncodeValue for Segmented<'a> {
    ghost value_size = { octets_size segmented_octets };

    ghost encode_value_answers = { SegmentedWritten };

    #[inline(always)]
    fn value_len(&self) -> Result<Length, Error> {
        Ok(Length::new(self.count))
    }

    fn encode_value<W: Writer>(&self, writer: &mut W) -> Result<(), Error> {
        let mut segments = self.segments();
        'pieces: while let Some(piece) = segments.next() {
            writer.write(piece)?;
        }
        Ok(())
    }

    // `encode_value_before` is that of the trait: the length that it asks for is known.
    #[inline(always)]
    fn value_len_before(&self) -> Option<u32> {
        // read for its range
        let count = self.count;
        Some(count)
    }
}

impl<'a> Lawful for Segmented<'a> {
    ghost lawful = { segmented_lawful };
}
