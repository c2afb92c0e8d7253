//! Reading of the elements before the first one with a known tag, for a type with an extension
//! mark.
ghost use Rattle.std.specs.Prelude.{◌≡◌, ◌^◌, ◌<◌, ◌-◌, ℕ, true, List, OnOk, IfOk, length};
ghost use Rattle.der.specs.Decode.{SucceedsOrLacks};
ghost use Rattle.der.specs.Prelude.{Der, map_ok, read_slice_outcome, rest_of};
ghost use Rattle.der.specs.ReaderState.{initial_state};
ghost use Rattle.der_asn1.specs.SequenceOf.{IsAtItem};
ghost use Rattle.der_asn1.specs.UnknownWalk.{IsLeft, UnknownCounted, IsUnknownCount, IsUnknownFront, Looks, PassesUnknown, UnknownWalk, UnknownWalked};

use crate::fields::known_tags::KnownTags;
use crate::lists::item::DecodeItem;
use crate::lists::item_walk::{next_item, read_part};
use der::{Decode, Error, Lends, Length, Reader, ReaderExt, SliceReader};
use std::alloc::Global;

// Whether octets are left that do not begin with a known tag.
#[inline(always)]
fn is_unknown_next<R: Reader, K: KnownTags>(reader: &R) -> Result<bool, Error>
    ensures { Looks K.known R.reliable (R.state reader.now) result }
{
    if reader.is_finished() {
        return Ok(false);
    }
    let tag = reader.peek_tag()?;
    Ok(!K::is_known(tag))
}

// Passes values up to the first known tag, or up to the end.
fn pass_unknown<R: Reader, T: DecodeItem<R>, K: KnownTags>(
    alloc: Global,
    reader: &mut R,
) -> Result<(), <T as Decode<R>>::Error>
    requires { IsAtItem (R.state reader.old) }
    ensures ok { OnOk result (PassesUnknown K.known T.item.valid T.item.octets
        (R.state reader.old) (R.state reader.new)) }
    ensures complete { (front : List ℕ) → R.reliable ≡ true
        → IsUnknownFront K.known T.item.valid T.item.octets (rest_of (R.state reader.old)) front
        → SucceedsOrLacks T.Error.out_of_memory T.item.allocates result }
    ensures exact { R.reliable ≡ true → UnknownWalk K.known T.Error.from_gives T.decode_answers
        result (R.state reader.new) (R.state reader.old) }
{
    'unknown: while is_unknown_next::<R, K>(reader)? {
        let _item = next_item::<R, T>(alloc, reader)?;
    }
    Ok(())
}

// The number of octets of the values up to the first known tag.
fn unknown_len<R: Reader, T: DecodeItem<R>, K: KnownTags>(
    alloc: Global,
    reader: &mut R,
) -> Result<Length, <T as Decode<R>>::Error>
    requires { IsAtItem (R.state reader.old) }
    ensures ok { IfOk result (λ n. IsUnknownCount K.known T.item.valid T.item.octets
        (rest_of (R.state reader.old)) n) }
    ensures complete { (front : List ℕ) → R.reliable ≡ true
        → IsUnknownFront K.known T.item.valid T.item.octets (rest_of (R.state reader.old)) front
        → SucceedsOrLacks T.Error.out_of_memory T.item.allocates result }
    ensures exact { R.reliable ≡ true → UnknownWalked K.known T.Error.from_gives T.decode_answers
        (map_ok (λ _. tt) result) (R.state reader.old) }
{
    let before = reader.remaining_len();
    pass_unknown::<R, T, K>(alloc, reader)?;
    Ok(before.saturating_sub(reader.remaining_len()))
}

// The number of octets of the DER encodings at the front of octets, up to the first known tag. The
// caller must ensure that there are at most 4294967295 octets.
fn unknown_len_in<'a, T: DecodeItem<SliceReader<'a>>, K: KnownTags>(
    alloc: Global,
    octets: &'a [u8],
) -> Result<Length, <T as Decode<SliceReader<'a>>>::Error>
    requires { length octets.now < 2 ^ 32 }
    ensures ok { IfOk result (λ n. IsUnknownCount K.known T.item.valid T.item.octets octets.now n) }
    ensures complete { (front : List ℕ)
        → IsUnknownFront K.known T.item.valid T.item.octets octets.now front
        → SucceedsOrLacks T.Error.out_of_memory T.item.allocates result }
    ensures exact { UnknownWalked K.known T.Error.from_gives T.decode_answers
        (map_ok (λ _. tt) result) (initial_state Der octets.now) }
{
    let mut reader = SliceReader::new(octets)?;
    unknown_len::<SliceReader<'a>, T, K>(alloc, &mut reader)
}

// The number of octets of the values at the front of a part of the input, up to the first known tag.
// The part has these octets.
pub(crate) fn unknown_len_of<
    'a,
    R: Reader,
    T: DecodeItem<R> + DecodeItem<SliceReader<'a>, Error = <T as Decode<R>>::Error>,
    K: KnownTags,
>(alloc: Global, part: &mut R, octets: &'a [u8]) -> Result<Length, <T as Decode<R>>::Error>
    requires at { (R.state part.old).rules ≡ Der → IsAtItem (R.state part.old) }
    requires all { rest_of (R.state part.old) ≡ octets.now }
    requires short { length octets.now < 2 ^ 32 }
    ensures ok { IfOk result (λ n. IsUnknownCount K.known T.item.valid T.item.octets octets.now n) }
    ensures complete { (front : List ℕ) → R.reliable ≡ true
        → IsUnknownFront K.known T.item.valid T.item.octets octets.now front
        → SucceedsOrLacks T.Error.out_of_memory T.item.allocates result }
    ensures exact { R.reliable ≡ true → UnknownCounted K.known T.Error.from_gives
        T.Decode-1.decode_answers T.Decode-2.decode_answers (map_ok (λ _. tt) result)
        (R.state part.old).rules (R.state part.old) octets.now }
{
    if !part.encoding_rules().is_der() {
        return unknown_len_in::<T, K>(alloc, octets);
    }
    unknown_len::<R, T, K>(alloc, part)
}

// A reader of all octets that are left, and these octets. The other reader does not move.
pub(crate) fn left_part<R: Reader>(reader: &R) -> Result<(R, <R as Lends>::Borrowed), Error>
    ensures ok { IfOk result (λ p. IsLeft (R.state reader.now) (R.state p.0)
        (R.Borrowed.octets p.1)) }
    ensures exact { R.reliable ≡ true → map_ok (λ p. R.Borrowed.octets p.1) result
        ≡ (read_slice_outcome ((R.state reader.now).end - (R.state reader.now).position)
        (R.state reader.now)).answer }
{
    let mut probe = reader.fork();
    read_part(&mut probe, reader.remaining_len())
}
