//! Decoding of items in ascending order of their encodings.
ghost use Rattle.std.specs.Prelude.{◌≡◌, ◌^◌, ◌<◌, ◌≤◌, ◌↔◌, false, true, [], length, IfOk, OnOk, IsErrAnd, IsTrue};
ghost use Rattle.der.specs.Prelude.{rest_of, Reads, slice_state, IsBefore, error_of_kind};
ghost use Rattle.der.specs.ErrorKinds.{Overflow};
ghost use Rattle.der.specs.Decode.{SucceedsOrLacks};
ghost use Rattle.der_asn1.specs.SequenceOf.{IsAtItem, IsListOf};
ghost use Rattle.der_asn1.specs.SetOf.{AreAscending, IsEncoded};
ghost use Rattle.der_asn1.specs.ListAnswers.{NextAnswer, SetAnswer, SetWalked};

use crate::lists::item::DecodeItem;
use crate::lists::item_walk::{has_item, items_are_elements, next_item};
use der::{Decode, ErrorKind, Reader, ReaderExt, SliceReader};
use std::alloc::Global;
use std::cmp::Ordering;

// Whether the first octets are smaller than the second (X.690 11.6).
#[inline(always)]
fn comes_before(first: &[u8], second: &[u8]) -> bool
    ensures { IsTrue result ↔ IsBefore first.now second.now }
{
    match first.cmp(second) {
        Ordering::Less => true,
        _ => false,
    }
}

// The octets of the next item, after decoding it. The slice `rest` has the octets that the reader
// has not read.
#[inline(always)]
fn next_octets<'r, R: Reader, T: DecodeItem<R>>(
    alloc: Global,
    reader: &mut R,
    rest: &'r [u8],
) -> Result<&'r [u8], <T as Decode<R>>::Error>
    requires item { IsAtItem (R.state reader.old) }
    requires rest { rest.now ≡ rest_of (R.state reader.old) }
    ensures ok { IfOk result (λ o. IsEncoded T.item.valid T.item.octets o.now
        × Reads (R.state reader.old) (R.state reader.new) o.now) }
    ensures complete { R.reliable ≡ true
        → IsListOf T.item.valid T.item.octets (rest_of (R.state reader.old))
        → (rest_of (R.state reader.old) ≡ [] → ⊥)
        → SucceedsOrLacks T.Error.out_of_memory T.item.allocates result }
    ensures exact { R.reliable ≡ true → NextAnswer T.Error.from_gives T.decode_answers
        (R.state reader.old) result (R.state reader.new) }
{
    let _item = next_item::<R, T>(alloc, reader)?;
    let left = u32::from(reader.remaining_len()) as usize;
    Ok(&rest[..rest.len() - left])
}

// Decodes all items up to the end of the reader. Each must not be smaller than the one before it.
// The slice `octets` has the octets that the reader has not read.
pub(crate) fn read_set<R: Reader, T: DecodeItem<R>>(
    alloc: Global,
    reader: &mut R,
    octets: &[u8],
) -> Result<(), <T as Decode<R>>::Error>
    requires item { IsAtItem (R.state reader.old) }
    requires rest { octets.now ≡ rest_of (R.state reader.old) }
    ensures ok { OnOk result (AreAscending T.item.valid T.item.octets octets.now) }
    ensures complete { R.reliable ≡ true → AreAscending T.item.valid T.item.octets octets.now
        → SucceedsOrLacks T.Error.out_of_memory T.item.allocates result }
    ensures exact { R.reliable ≡ true → SetAnswer T.Error.from_gives T.decode_answers result []
        (R.state reader.old) }
{
    items_are_elements::<R, T>();
    let mut rest = octets;
    let mut previous: &[u8] = &[];
    'items: while has_item(reader) {
        let start = reader.position();
        let item = next_octets::<R, T>(alloc, reader, rest)?;
        if comes_before(item, previous) {
            return Err(ErrorKind::SetOrdering.at(start).into());
        }
        previous = item;
        rest = &rest[item.len()..];
    }
    Ok(())
}

// Checks that octets are encodings of values, in sequence and in ascending order.
pub(crate) fn check_set<'a, T: DecodeItem<SliceReader<'a>>>(
    alloc: Global,
    octets: &'a [u8],
) -> Result<(), <T as Decode<SliceReader<'a>>>::Error>
    ensures ok { OnOk result (AreAscending T.item.valid T.item.octets octets.now) }
    ensures short { OnOk result (length octets.now < 2 ^ 32) }
    ensures complete { length octets.now < 2 ^ 32
        → AreAscending T.item.valid T.item.octets octets.now
        → SucceedsOrLacks T.Error.out_of_memory T.item.allocates result }
    ensures too_long { 2 ^ 32 ≤ length octets.now
        → IsErrAnd result (λ e. T.Error.from_gives (error_of_kind Overflow) e) }
    ensures exact { length octets.now < 2 ^ 32 → SetWalked T.Error.from_gives T.decode_answers
        result octets.now }
{
    let mut reader = SliceReader::new(octets)?;
    read_set::<SliceReader<'a>, T>(alloc, &mut reader, octets)
}
