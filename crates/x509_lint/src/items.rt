//! Whether octets are the encodings of values of a type.
ghost use Rattle.std.specs.Prelude.{◌↔◌, IsTrue};
ghost use Rattle.x509_lint.specs.Items.{AreItems, IsListValue, IsStructValue};

use crate::elements::contents_with;
use crate::part_test::is_single;
use der::{SliceReader, Tag};
use der_asn1::{BorrowedItem, DecodeItem, SequenceOf};
use std::alloc::Global;

/// Whether `octets` are the DER encoding of a SEQUENCE OF values of type `T`.
pub fn is_list_of<'a, T: DecodeItem<SliceReader<'a>> + BorrowedItem>(
    alloc: Global,
    octets: &'a [u8],
) -> bool
    ensures { IsTrue result ↔ IsListValue T.item.valid T.item.octets octets.now }
{
    match contents_with(alloc, octets, Tag::Sequence) {
        Some(contents) => are_items::<T>(alloc, contents),
        None => false,
    }
}

/// Whether `octets` are the DER encoding of exactly one value of type `T`.
pub fn is_one_of<'a, T: DecodeItem<SliceReader<'a>> + BorrowedItem>(
    alloc: Global,
    octets: &'a [u8],
) -> bool
    ensures { IsTrue result ↔ IsStructValue T.item.valid T.item.octets octets.now }
{
    is_single(alloc, octets) && are_items::<T>(alloc, octets)
}

/// Whether `octets` are the DER encodings of values of type `T`, one after the other.
pub fn are_items<'a, T: DecodeItem<SliceReader<'a>> + BorrowedItem>(
    alloc: Global,
    octets: &'a [u8],
) -> bool
    ensures { IsTrue result ↔ AreItems T.item.valid T.item.octets octets.now }
{
    SequenceOf::<'a, T>::new(alloc, octets).is_ok()
}
