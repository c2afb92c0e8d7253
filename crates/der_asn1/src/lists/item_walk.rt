//! Decoding of items, one after the other.
ghost use Rattle.std.specs.Prelude.{◌≡◌, ◌++◌, ◌^◌, ◌<◌, ◌≤◌, ℕ, List, false, true, [], length, IfOk, OnOk, IsErrAnd};
ghost use Rattle.der.specs.Outcome.{Meets};
ghost use Rattle.der.specs.Prelude.{Reads, Same, error_of_kind, map_ok, number};
ghost use Rattle.der.specs.Prelude.{read_slice_outcome, rest_of, slice_state};
ghost use Rattle.der.specs.DecodeValue.{IsAtEnd, IsInside};
ghost use Rattle.der_asn1.specs.Item.{IsElement};
ghost use Rattle.der.specs.ErrorKinds.{Overflow};
ghost use Rattle.der.specs.Decode.{SucceedsOrLacks};
ghost use Rattle.der_asn1.specs.ListAnswers.{IsPart, ItemAnswer, ListWalked, WalkAnswer};
ghost use Rattle.der_asn1.specs.SequenceOf.{IsAtItem, IsListOf};

use crate::lists::item::DecodeItem;
use der::{Decode, Error, ErrorKind, Lends, Length, Reader, ReaderExt, Resumption, SliceReader};
use std::alloc::Global;

// Decodes the next item. Returns the error `Failed` if its type returns a value but leaves the
// reader failed.
#[inline(always)]
pub(crate) fn next_item<R: Reader, T: DecodeItem<R>>(
    alloc: Global,
    reader: &mut R,
) -> Result<T, <T as Decode<R>>::Error>
    requires { IsAtItem (R.state reader.old) }
    ensures same { Same (R.state reader.old) (R.state reader.new) }
    ensures ok { IfOk result (λ v. T.item.valid v
        × Reads (R.state reader.old) (R.state reader.new) (T.item.octets v)) }
    ensures complete { R.reliable ≡ true
        → IsListOf T.item.valid T.item.octets (rest_of (R.state reader.old))
        → (rest_of (R.state reader.old) ≡ [] → ⊥)
        → SucceedsOrLacks T.Error.out_of_memory T.item.allocates result }
    ensures first { (v : T) (others : List ℕ) → R.reliable ≡ true → T.item.valid v
        → rest_of (R.state reader.old) ≡ T.item.octets v ++ others
        → SucceedsOrLacks T.Error.out_of_memory T.item.allocates result }
    ensures keeps { IsListOf T.item.valid T.item.octets (rest_of (R.state reader.old))
        → (rest_of (R.state reader.old) ≡ [] → ⊥)
        → IfOk result (λ _. IsListOf T.item.valid T.item.octets
        (rest_of (R.state reader.new))) }
    ensures exact { R.reliable ≡ true → ItemAnswer T.Error.from_gives T.decode_answers
        (R.state reader.old) result (R.state reader.new) }
{
    let value = T::decode(alloc, reader)?;
    if reader.is_failed() {
        return Err(reader.error(ErrorKind::Failed).into());
    }
    Ok(value)
}

// Decodes all items up to the end of the reader.
pub(crate) fn read_items<R: Reader, T: DecodeItem<R>>(
    alloc: Global,
    reader: &mut R,
) -> Result<(), <T as Decode<R>>::Error>
    requires { IsAtItem (R.state reader.old) }
    ensures ok { OnOk result (IsListOf T.item.valid T.item.octets
        (rest_of (R.state reader.old))) }
    ensures complete { R.reliable ≡ true
        → IsListOf T.item.valid T.item.octets (rest_of (R.state reader.old))
        → SucceedsOrLacks T.Error.out_of_memory T.item.allocates result }
    ensures exact { R.reliable ≡ true → WalkAnswer T.Error.from_gives T.decode_answers result
        (R.state reader.old) }
{
    'items: while has_item(reader) {
        let _item = next_item::<R, T>(alloc, reader)?;
    }
    Ok(())
}

// Checks that octets are encodings of values, in sequence.
pub(crate) fn check_items<'a, T: DecodeItem<SliceReader<'a>>>(
    alloc: Global,
    octets: &'a [u8],
) -> Result<(), <T as Decode<SliceReader<'a>>>::Error>
    ensures ok { OnOk result (IsListOf T.item.valid T.item.octets octets.now) }
    ensures short { OnOk result (length octets.now < 2 ^ 32) }
    ensures complete { length octets.now < 2 ^ 32
        → IsListOf T.item.valid T.item.octets octets.now
        → SucceedsOrLacks T.Error.out_of_memory T.item.allocates result }
    ensures too_long { 2 ^ 32 ≤ length octets.now
        → IsErrAnd result (λ e. T.Error.from_gives (error_of_kind Overflow) e) }
    ensures exact { length octets.now < 2 ^ 32 → ListWalked T.Error.from_gives T.decode_answers
        result octets.now }
{
    let mut reader = SliceReader::new(octets)?;
    read_items::<SliceReader<'a>, T>(alloc, &mut reader)
}

// The encoding of each item is one element, so no encoding begins another one.
#[inline(always)]
pub(crate) fn items_are_elements<R: Lends, T: DecodeItem<R>>()
    ensures { (v : T) → T.item.valid v → IsElement (T.item.octets v) }
{}

// Whether octets are left.
#[inline(always)]
pub(crate) fn has_item<R: Reader>(reader: &R) -> bool
    ensures some { result ≡ true → rest_of (R.state reader.now) ≡ [] → ⊥ }
    ensures more { result ≡ true → (R.state reader.now).end ≡ (R.state reader.now).position → ⊥ }
    ensures none { result ≡ false → (R.state reader.now).end ≡ (R.state reader.now).position }
{
    !reader.is_finished()
}

// Reads the next `len` octets as a slice. Also returns a reader of these octets that is at the same
// position of the input, and outside all nested parts.
#[inline(always)]
pub(crate) fn read_part<R: Reader>(
    reader: &mut R,
    len: Length,
) -> Result<(R, <R as Lends>::Borrowed), Error>
    ensures same { Same (R.state reader.old) (R.state reader.new) }
    ensures exact { Meets R.reliable (read_slice_outcome (number len)) (R.state reader.old)
        (map_ok (λ p. R.Borrowed.octets p.1) result) (R.state reader.new) }
    ensures part { IfOk result (λ p. IsPart (R.state reader.old) (number len) (R.state p.0)
        (R.Borrowed.octets p.1)) }
    ensures ends { IfOk result (λ p. IsInside (R.state reader.old) (number len)
        → IsAtEnd (R.state reader.new)
        × (R.Borrowed.octets p.1 ≡ rest_of (R.state reader.old))) }
{
    let mut part = reader.fork();
    let octets = reader.read_slice(len)?;
    part.leave_nested(Resumption::new(reader.position(), 0));
    Ok((part, octets))
}
