//! Types of which lists are made.
ghost use Rattle.der_asn1.specs.Item.{DecodesItems, IsItem, ItemSpec};

use der::{Decode, Lends};

/// Types whose values can be the items of a [`SequenceOf`](crate::SequenceOf) or a
/// [`SetOf`](crate::SetOf): [`Lawful`](der::Lawful) types, elements of any tag, and CHOICE types.
/// The encoding of each value is one element. The octets after this element do not affect how the
/// value is read.
///
/// Ghost member (for proofs only): `item` is the specification of a list item.
pub trait Item: Sized {
    ghost item: { ItemSpec Self };
}

/// Types of list items that a reader `R` can decode.
///
/// Ghost members (for proofs only):
///
/// - `is_item` proves that, under DER, values are read from their encodings and from no other
///   octets. It also proves that the encoding of each valid value is one element.
/// - `decodes_items` proves that, under DER, decoding returns the values that the specification of
///   the list item allows, and no others.
pub trait DecodeItem<R: Lends>: Decode<R> + Item {
    // Under DER, items are read as they are written.
    ghost is_item: { IsItem Self.item };

    // Under DER, decoding accepts exactly the items.
    ghost decodes_items: { DecodesItems Self.is_next Self.decode_levels Self.allocates Self.item };
}
