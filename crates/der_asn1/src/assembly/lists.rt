//! Lists of items, written into buffers.
ghost use Rattle.std.specs.Prelude.{◌≡◌, ◌≤◌, ◌^◌, ◌<◌, [], length, IfOk, IsOk};
ghost use Rattle.der.specs.Prelude.{map_ok};
ghost use Rattle.der_asn1.specs.ListAnswers.{ListWalked, SetWalked};
ghost use Rattle.der_asn1.specs.SequenceOf.{AllValid, joined_encodings};
ghost use Rattle.der_asn1.specs.SetOf.{EncodingsAscendAfter};
ghost use Rattle.der_asn1.specs.Assembly.{ListAssembled};

use super::written_item::WrittenItem;
use super::written_values::write_values;
use crate::lists::item::DecodeItem;
use crate::lists::sequence_of::SequenceOf;
use crate::lists::set_of::SetOf;
use der::{Error, SliceReader};
use std::alloc::Global;

/// Returns the SEQUENCE OF with the items `items`, in this order. The encodings of the items are
/// written to the start of `buffer`, from which the list is borrowed. Nothing is allocated.
///
/// # Errors
///
/// After an error the contents of the buffer are unspecified. Positions count from the start of the
/// buffer.
///
/// - The errors of [`Encode::encode`](der::Encode::encode) for an item. One of them is
///   `Overlength`, if the buffer is too short.
/// - The errors of [`SequenceOf::new`], if the octets written for an item are not a valid encoding
///   of an item.
pub fn sequence_of<'b, T: WrittenItem + DecodeItem<SliceReader<'b>, Error = Error>>(
    alloc: Global,
    items: &[T],
    buffer: &'b mut [u8],
) -> Result<SequenceOf<'b, T>, Error>
    ensures ok { IfOk result (λ v. v.octets.now ≡ joined_encodings T.item.octets items.now) }
    ensures succeeds { AllValid T.item.valid items.now
        → length (joined_encodings T.item.octets items.now) < 2 ^ 32
        → length (joined_encodings T.item.octets items.now) ≤ length buffer.old → IsOk result }
    ensures exact { ListAssembled T.encode_answers
        (λ octets r. ListWalked (λ e f. f ≡ e) T.decode_answers r octets) items.now buffer.old
        (map_ok (λ _. tt) result) }
{
    let octets = write_values(items, buffer)?;
    SequenceOf::new(alloc, octets)
}

/// Returns the SET OF with the items `items`, which must be in ascending order of their encodings
/// (X.690 11.6). This function does not sort the items. The encodings of the items are written to
/// the start of `buffer`, from which the set is borrowed. Nothing is allocated.
///
/// # Errors
///
/// After an error the contents of the buffer are unspecified. Positions count from the start of the
/// buffer.
///
/// - The errors of [`Encode::encode`](der::Encode::encode) for an item. One of them is
///   `Overlength`, if the buffer is too short.
/// - `SetOrdering` at the start of the first item whose encoding is less than the encoding of the
///   item before it.
/// - The errors of [`SetOf::new`], if the octets written for an item are not a valid encoding of an
///   item.
pub fn set_of<'b, T: WrittenItem + DecodeItem<SliceReader<'b>, Error = Error>>(
    alloc: Global,
    items: &[T],
    buffer: &'b mut [u8],
) -> Result<SetOf<'b, T>, Error>
    ensures ok { IfOk result (λ v. v.elements.octets.now
        ≡ joined_encodings T.item.octets items.now) }
    ensures succeeds { AllValid T.item.valid items.now
        → EncodingsAscendAfter T.item.octets [] items.now
        → length (joined_encodings T.item.octets items.now) < 2 ^ 32
        → length (joined_encodings T.item.octets items.now) ≤ length buffer.old → IsOk result }
    ensures exact { ListAssembled T.encode_answers
        (λ octets r. SetWalked (λ e f. f ≡ e) T.decode_answers r octets) items.now buffer.old
        (map_ok (λ _. tt) result) }
{
    let octets = write_values(items, buffer)?;
    SetOf::new(alloc, octets)
}
