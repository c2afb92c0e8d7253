//! An OCTET STRING that is borrowed from the input, as a field and as an item of a list.
ghost use Rattle.std.proofs.Common.{refl};
ghost use Rattle.der_asn1.specs.Meaning.{is_lawful_item, sequence_item};
ghost use Rattle.der_segments.specs.Segmented.{segmented_element};

use crate::segmented::Segmented;
use der_asn1::{Described, Item, LawfulItem};

impl<'a> Described for Segmented<'a> {
    ghost element = { segmented_element };
}

impl<'a> Item for Segmented<'a> {
    ghost item = { sequence_item segmented_element };
}

/// The items of a list must be DER encodings, even if the reader reads BER. So no item of a list is
/// in segments.
impl<'a> LawfulItem for Segmented<'a> {
    ghost is_lawful_item = { is_lawful_item segmented_element refl };
}
