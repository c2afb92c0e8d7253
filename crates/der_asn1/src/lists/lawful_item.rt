//! Lawful types as items of lists.
ghost use Rattle.der_asn1.specs.LawfulItem.{IsLawfulItem};

use crate::assembly::WrittenItem;
use crate::fields::explicit::Nestable;
use crate::lists::item::{DecodeItem, Item};
use crate::lists::iter::BorrowedItem;
use der::{DecodeValue, EncodeValue, Lawful, Lends};

/// [`Lawful`] types of list items that are decoded without allocating, such as SEQUENCEs. A type
/// that implements this trait is a [`DecodeItem`], a [`BorrowedItem`], a [`WrittenItem`] and
/// [`Nestable`].
///
/// Ghost member (for proofs only): `is_lawful_item` proves that a list item is read and written as
/// an element of the type is, that each valid item can be written, that decoding an item does not
/// allocate, and that the contents nest at most 62 levels deep.
pub trait LawfulItem: Lawful + Item {
    // An item is an element of the type.
    ghost is_lawful_item: { IsLawfulItem Self.tag_is Self.takes Self.contents Self.writable
        Self.value_levels Self.allocates Self.item };
}

impl<R: Lends, T: LawfulItem + DecodeValue<R>> DecodeItem<R> for T {
    ghost is_item = { T.is_lawful_item.is_item };

    ghost decodes_items = { T.is_lawful_item.decodes };
}

impl<T: LawfulItem> BorrowedItem for T {
    ghost borrowed = { T.is_lawful_item.borrowed };
}

impl<T: LawfulItem + EncodeValue> WrittenItem for T {
    ghost written = { T.is_lawful_item.written };

    ghost writes_valid = { T.is_lawful_item.writes_valid };
}

impl<T: LawfulItem> Nestable for T {
    ghost nestable = { T.is_lawful_item.shallow };
}
