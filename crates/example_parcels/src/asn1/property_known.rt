//! Written by asn1_compile from the module Parcels: change the module instead.
//!
//! PropertyKnown.
ghost use Rattle.std.specs.Prelude.{[]};

use der::Tag;
use der_asn1::{KnownTags, is_among};

/// The tags of the components of [`Property`]. An element with another tag is kept as it was read.
#[derive(Clone, Copy, Debug, PartialEq, Eq)]
pub struct PropertyKnown;

impl KnownTags for PropertyKnown {
    ghost known = { [] };

    fn is_known(tag: Tag) -> bool {
        is_among(&[], tag)
    }
}
