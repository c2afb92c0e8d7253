//! Written by asn1_compile from the module Lightweight-Directory-Access-Protocol-V3: change the module instead.
//!
//! FilterKnown.
ghost use Rattle.std.specs.Prelude.{◌∷◌, []};

use der::Tag;
use der_asn1::{KnownTags, is_among};

/// The tags of the components of [`Filter`]. An element with another tag is kept as it was read.
#[derive(Clone, Copy, Debug, PartialEq, Eq)]
pub struct FilterKnown;

impl KnownTags for FilterKnown {
    ghost known = { (2, 0) ∷ (2, 1) ∷ (2, 2) ∷ (2, 3) ∷ (2, 4) ∷ (2, 5) ∷ (2, 6) ∷ (2, 7) ∷ (2, 8) ∷ (2, 9) ∷ [] };

    fn is_known(tag: Tag) -> bool {
        is_among(
            &[
                (2, 0),
                (2, 1),
                (2, 2),
                (2, 3),
                (2, 4),
                (2, 5),
                (2, 6),
                (2, 7),
                (2, 8),
                (2, 9),
            ],
            tag,
        )
    }
}
