//! An iterator over the segments of an OCTET STRING.
ghost use Rattle.std.specs.Prelude.{◌≡◌, ◌^◌, ◌<◌, false, length};
ghost use Rattle.der.specs.Prelude.{rest_of, slice_state};
ghost use Rattle.der_segments.specs.Pieces.{HasPieces};

mod next;
mod walk;

use der::SliceReader;

/// An iterator over the contents of the primitive segments of an OCTET STRING, in order (X.690
/// 8.7.3). A string that is not in segments is one segment.
#[derive(Drop)]
pub struct Segments<'a> {
    reader: SliceReader<'a>,
    constructed: bool,
    ghost working: { (slice_state reader).failed ≡ false },
    ghost left: { ∥ HasPieces constructed (rest_of (slice_state reader)) ∥₁ },
}

impl<'a> Segments<'a> {
    // An iterator over the pieces of these contents.
    pub(crate) fn new(octets: &'a [u8], constructed: bool) -> Self
        requires short { length octets.now < 2 ^ 32 }
        requires left { ∥ HasPieces constructed octets.now ∥₁ }
        ensures octets { rest_of (slice_state result.reader) ≡ octets.now }
        ensures form { result.constructed ≡ constructed }
    {
        match SliceReader::new(octets) {
            Ok(reader) => Segments {
                reader,
                constructed,
            },
            Err(_) => unreachable!(),
        }
    }
}
