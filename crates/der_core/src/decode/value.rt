//! Decoding of contents.
ghost use Rattle.std.specs.Prelude.{◌≡◌, ℕ, ◌+◌, ◌≤◌, Bool, true, false, List, IfOk, Result as AResult};
ghost use Rattle.der_base.specs.HeaderGrammar.{Head};
ghost use Rattle.der_base.specs.declared.encoding_rules.EncodingRules.{EncodingRules as Rules};
ghost use Rattle.der_core.specs.ReaderState.{ReaderState, rest_of, Same};
ghost use Rattle.der_core.specs.Decode.{Passes, ReadsOrLacks};
ghost use Rattle.der_core.specs.DecodeValue.{ContentsNext, EndsOrLacks, TakesContents};
ghost use Rattle.der_core.specs.Element.{ElementNext, ElementRead, element_levels};
ghost use Rattle.der_core.specs.Header.{head_of};

use crate::decode::{Decode, DecodeError};
use crate::header::{Header, decode_guessed_header};
use crate::identifier::guess;
use crate::reader::{Lends, Reader, read_value};
use crate::tag::fixed::FixedTag;
use std::alloc::Global;

/// The meaning of a type when its values are read: which values it has, and which octets are read
/// as which value. The trait has no functions.
///
/// Ghost members (for proofs only):
///
/// - `valid` says which models are valid values. A model is a value of the type as it appears in
///   proofs.
/// - `takes` says which contents octets are read as which value, under given encoding rules and
///   after a given header. The length in that header does not count end-of-contents octets.
/// - `value_levels` is the number of nesting levels that the contents require under given encoding
///   rules.
/// - `allocates` says whether reading allocates.
/// - `takes_valid` is a property that implementors prove: only valid values are read.
pub trait ReadValue: Sized {
    ghost valid: { Self → Type 0 };

    ghost takes: { Self → Rules → Head → List ℕ → Type 0 };

    ghost value_levels: { Rules → ℕ };

    ghost allocates: { Bool };

    // only valid values are read
    ghost takes_valid: { (v : Self) (rules : Rules) (h : Head) (octets : List ℕ)
        → takes v rules h octets → valid v };
}

/// Types whose values are decoded from the contents after a header. A type that also implements
/// [`FixedTag`] is decoded by [`Decode`]: its header, then its contents.
///
/// Ghost member (for proofs only): `decode_value_answers` is the exact outcome on a reliable reader
/// (see [`Reader`]), including each error and the state in which it leaves the reader. Its
/// arguments are the header, the reader before, the result, and the reader after.
pub trait DecodeValue<R: Lends>: ReadValue + Drop {
    /// The error type of decoding.
    type Error: DecodeError;

    ghost decode_value_answers: { Head → ReaderState → AResult Self Self.Error → ReaderState
        → Type 0 };

    /// Decodes a value from the contents that the reader is inside. `header` is the header before
    /// the contents; its length is the number of contents octets, and does not count
    /// end-of-contents octets.
    ///
    /// The contents are accepted only if the function returns `Ok`, has read all of them, and
    /// leaves the reader not failed. If it returns `Ok`, the caller must check the other two
    /// conditions.
    ///
    /// Suppose that the reader is reliable (see [`Reader`]), has not failed, is inside a nested
    /// part, and has at least as many of its 64 levels of nesting left as the ghost member
    /// `value_levels` says. If the ghost member `takes` holds for the contents and some value, the
    /// function reads all of the contents and returns `Ok`, or it returns an error that reports a
    /// failed allocation.
    ///
    /// # Errors
    ///
    /// - An error that reports a failed allocation, if the type allocates.
    /// - The errors of the type: the ghost member `decode_value_answers` specifies them, their
    ///   positions, and whether the reader is then failed.
    fn decode_value(alloc: Global, reader: &mut R, header: Header) -> Result<Self, Self::Error>
    where
        R: Reader,
        ensures same { Same (R.state reader.old) (R.state reader.new) }
        ensures sound { TakesContents Self.takes (head_of header) (R.state reader.old) result
            (R.state reader.new) }
        ensures complete { (v : Self) → R.reliable ≡ true
            → ContentsNext (Self.takes v) (head_of header) (R.state reader.old)
            → (R.state reader.old).depth + Self.value_levels (R.state reader.old).rules ≤ 64
            → EndsOrLacks Self.Error.out_of_memory Self.allocates result (R.state reader.new) }
        ensures exact { R.reliable ≡ true → decode_value_answers (head_of header)
            (R.state reader.old) result (R.state reader.new) };
}

/// Decodes the whole element of a value (X.690 8.1.1): a header with the type's tag, the contents,
/// and the end-of-contents octets if the length is indefinite. [`Decode::decode`] calls this
/// function for every type that implements [`DecodeValue`] and [`FixedTag`].
///
/// # Errors
///
/// - Those of the header, as by [`Header::decode`].
/// - `TagUnexpected` without a position, if the header has another tag; the reader is after the
///   header and has not failed.
/// - `Overflow`, `Incomplete` and `NestingDepth`, if the contents cannot be entered, as by
///   [`Reader::enter_nested`]; the reader is after the header.
/// - Those of the type, as by [`DecodeValue::decode_value`].
/// - `TrailingData` at the reader's position, if [`DecodeValue::decode_value`] leaves contents
///   octets unread; the reader is then failed.
/// - Those of [`read_eoc`](crate::read_eoc), if the length was read in the indefinite form.
#[inline(always)]
pub fn decode_tlv<R: Reader, T: DecodeValue<R> + FixedTag>(
    alloc: Global,
    reader: &mut R,
) -> Result<T, <T as DecodeValue<R>>::Error>
    ensures same { Same (R.state reader.old) (R.state reader.new) }
    ensures ok { IfOk result (λ v. (R.state reader.new).failed ≡ false
        → Passes (ElementNext T.tag_is T.takes v) (R.state reader.old) (R.state reader.new)) }
    ensures complete { (v : T) (m : ℕ) → R.reliable ≡ true
        → (R.state reader.old).failed ≡ false
        → ElementNext T.tag_is T.takes v (R.state reader.old).rules
        (rest_of (R.state reader.old)) m
        → (R.state reader.old).depth + element_levels T.value_levels (R.state reader.old).rules ≤ 64
        → ReadsOrLacks T.Error.out_of_memory T.allocates (R.state reader.old) m result
        (R.state reader.new) }
    ensures exact { R.reliable ≡ true
        → ElementRead T.tag_is T.Error.from_gives T.decode_value_answers (R.state reader.old) result
        (R.state reader.new) }
{
    let expected = T::fixed_tag();
    let header = decode_guessed_header(reader, guess(expected))?;
    header.tag().assert_eq(expected)?;
    read_value(
        reader,
        header,
        |reader: &mut R, header: Header| -> Result<T, <T as DecodeValue<R>>::Error>
            ensures same { Same (R.state reader.old) (R.state reader.new) }
            ensures sound { TakesContents T.takes (head_of header) (R.state reader.old) result
                (R.state reader.new) }
            ensures complete { (v : T) → R.reliable ≡ true
                → ContentsNext (T.takes v) (head_of header) (R.state reader.old)
                → (R.state reader.old).depth + T.value_levels (R.state reader.old).rules ≤ 64
                → EndsOrLacks T.Error.out_of_memory T.allocates result (R.state reader.new) }
            ensures exact { R.reliable ≡ true → T.decode_value_answers (head_of header)
                (R.state reader.old) result (R.state reader.new) }
        { T::decode_value(alloc, reader, header) },
    )
}

impl<R: Lends, T: DecodeValue<R> + FixedTag> Decode<R> for T {
    type Error = <T as DecodeValue<R>>::Error;

    ghost is_next = { ElementNext T.tag_is T.takes };

    ghost decode_levels = { element_levels T.value_levels };

    ghost allocates = { T.allocates };

    ghost decode_answers = { ElementRead T.tag_is T.Error.from_gives T.decode_value_answers };

    #[inline(always)]
    fn decode(alloc: Global, reader: &mut R) -> Result<T, <T as DecodeValue<R>>::Error>
    where
        R: Reader,
    {
        decode_tlv(alloc, reader)
    }
}
