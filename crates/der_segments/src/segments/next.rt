//! The next segment of an OCTET STRING.
ghost use Rattle.std.specs.Prelude.{◌≡◌, ◌∷◌, [], MatchOption};
ghost use Rattle.std.specs.Iterator.{item_count};
ghost use Rattle.der_segments.specs.Segments.{pieces_left};

use crate::segments::Segments;
use crate::segments::walk::next_piece;
use der::{Reader, ReaderExt};

impl<'a> Iterator for Segments<'a> {
    type Item = &'a [u8];

    ghost next_gives = { λ s r t. MatchOption r ((pieces_left s ≡ []) × (pieces_left t ≡ []))
        (λ x. pieces_left s ≡ x.now ∷ pieces_left t) };

    ghost remaining = { item_count pieces_left };

    fn next(&mut self) -> Option<&'a [u8]> {
        if !self.constructed {
            let length = self.reader.remaining_len();
            self.constructed = true;
            return match self.reader.read_slice(length) {
                Ok(octets) => Some(octets),
                Err(_) => unreachable!(),
            };
        }
        match next_piece(&mut self.reader) {
            Ok(piece) => piece,
            Err(_) => unreachable!(),
        }
    }
}
