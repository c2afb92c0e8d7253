//! Decoding.
ghost use Rattle.std.specs.Prelude.{◌≡◌, ℕ, ◌+◌, ◌^◌, ◌<◌, ◌≤◌, Bool, true, false, List, length, drop, IfOk, Result as AResult};
ghost use Rattle.std.proofs.Common.{ap};
ghost use Rattle.der_base.specs.Error.{kind_of};
ghost use Rattle.der_base.specs.declared.error.Error.{Error as AnError};
ghost use Rattle.der_base.specs.declared.encoding_rules.EncodingRules.{EncodingRules as Rules};
ghost use Rattle.der_base.specs.declared.encoding_rules.EncodingRules.TheVariants.{Ber, Der};
ghost use Rattle.der_core.specs.ReaderState.{ReaderState, rest_of, Same};
ghost use Rattle.der_core.specs.Outcome.{map_ok};
ghost use Rattle.der_core.specs.Decode.{is_out_of_memory_kind, Passes, ReadsOrLacks, SucceedsOrLacks, PartialAnswer, Whole, WholeAnswer};

mod boxed;
mod fields;
mod is_value;
mod lawful;
mod long_tuples;
mod phantom;
mod tuples;
mod value;

use crate::reader::{Lends, Reader, SliceReader};
use der_base::{EncodingRules, Error, ErrorKind};
pub use fields::decode_contents;
pub use is_value::IsValue;
pub use lawful::Lawful;
use std::alloc::Global;
pub use value::{DecodeValue, ReadValue, decode_tlv};

/// Error types of decoding: an [`Error`] converts to each of them.
///
/// Ghost members (for proofs only):
///
/// - `out_of_memory` says whether an error reports that an allocation failed.
/// - `carries` is a property that implementors prove: the error to which an [`Error`] is converted
///   reports a failed allocation exactly if the [`Error`] does.
pub trait DecodeError: From<Error> + Drop {
    ghost out_of_memory: { Self → Bool };

    /// Whether the error reports that an allocation failed.
    fn is_out_of_memory(&self) -> bool
        ensures { result ≡ out_of_memory self.now };

    // a converted error reports a failed allocation exactly if the original error did
    ghost carries: { (e : AnError) (d : Self) → Self.from_gives e d
        → out_of_memory d ≡ is_out_of_memory_kind (kind_of e) };
}

impl DecodeError for Error {
    ghost out_of_memory = { λ e. is_out_of_memory_kind (kind_of e) };

    fn is_out_of_memory(&self) -> bool {
        matches!(self.kind(), ErrorKind::OutOfMemory)
    }

    ghost carries = { λ e d same. ap (λ x. is_out_of_memory_kind (kind_of x)) same };
}

/// Types that are decoded from the octets of a reader `R`.
///
/// Ghost members (for proofs only):
///
/// - `is_next` says whether a list of octets begins with a value under given encoding rules, and
///   how many octets the value takes up. The list has all octets that remain, because the octets
///   after an indefinite length determine where the contents end.
/// - `decode_levels` is the number of nesting levels that decoding requires under given encoding
///   rules.
/// - `allocates` says whether decoding allocates.
/// - `decode_answers` is the exact outcome on a reliable reader (see [`Reader`]), including each
///   error and the state in which it leaves the reader.
pub trait Decode<R: Lends>: Sized + Drop {
    /// The error type of decoding.
    type Error: DecodeError;

    ghost is_next: { Self → Rules → List ℕ → ℕ → Type 0 };

    ghost decode_levels: { Rules → ℕ };

    ghost allocates: { Bool };

    ghost decode_answers: { ReaderState → AResult Self Self.Error → ReaderState → Type 0 };

    /// Decodes a value from the next octets of the reader and consumes them.
    ///
    /// Suppose that the reader is reliable (see [`Reader`]), has not failed, and has at least as
    /// many of its 64 levels of nesting left as the ghost member `decode_levels` says. If the
    /// reader's next octets are a value, the result is this value or an error that reports a failed
    /// allocation.
    ///
    /// # Errors
    ///
    /// - An error that reports a failed allocation, if the type allocates.
    /// - The errors of the type: the ghost member `decode_answers` specifies them, their positions,
    ///   and whether the reader is then failed.
    fn decode(alloc: Global, reader: &mut R) -> Result<Self, Self::Error>
    where
        R: Reader,
        ensures same { Same (R.state reader.old) (R.state reader.new) }
        ensures ok { IfOk result (λ v. (R.state reader.old).failed ≡ false
            → (R.state reader.new).failed ≡ false
            → Passes (is_next v) (R.state reader.old) (R.state reader.new)) }
        ensures complete { (v : Self) (m : ℕ) → R.reliable ≡ true
            → (R.state reader.old).failed ≡ false
            → is_next v (R.state reader.old).rules (rest_of (R.state reader.old)) m
            → (R.state reader.old).depth + decode_levels (R.state reader.old).rules ≤ 64
            → ReadsOrLacks Self.Error.out_of_memory allocates (R.state reader.old) m result
            (R.state reader.new) }
        ensures exact { R.reliable ≡ true
            → decode_answers (R.state reader.old) result (R.state reader.new) };
}

/// Decoding from octets in memory, for every type that is decoded from a [`SliceReader`].
pub trait DecodeBytes<'a>: Decode<SliceReader<'a>> {
    /// Decodes a value that takes up all octets of `bytes`, under the Distinguished Encoding Rules.
    ///
    /// # Errors
    ///
    /// - `Overflow` without a position, if there are more than 4294967295 octets.
    /// - The errors of the type, as by [`Decode::decode`] with a reader at the start of the octets.
    /// - `Failed` at the reader's position, if decoding the value succeeds but leaves the reader
    ///   failed.
    /// - `TrailingData` at the reader's position, if octets are left after the value.
    final fn from_der(
        alloc: Global,
        bytes: &'a [u8],
    ) -> Result<Self, <Self as Decode<SliceReader<'a>>>::Error>
        ensures ok { IfOk result (λ v. Whole (Self.is_next v) Der bytes.now) }
        ensures complete { (v : Self) → length bytes.now < 2 ^ 32
            → Whole (Self.is_next v) Der bytes.now → Self.decode_levels Der ≤ 64
            → SucceedsOrLacks Self.Error.out_of_memory Self.allocates result }
        ensures exact { WholeAnswer Der Self.decode_answers Self.Error.from_gives bytes.now result }
    {
        decode_whole(alloc, bytes, EncodingRules::Der)
    }

    /// Decodes a value that takes up all octets of `bytes`, under the Basic Encoding Rules.
    ///
    /// # Errors
    ///
    /// - `Overflow` without a position, if there are more than 4294967295 octets.
    /// - The errors of the type, as by [`Decode::decode`] with a reader at the start of the octets.
    /// - `Failed` at the reader's position, if decoding the value succeeds but leaves the reader
    ///   failed.
    /// - `TrailingData` at the reader's position, if octets are left after the value.
    final fn from_ber(
        alloc: Global,
        bytes: &'a [u8],
    ) -> Result<Self, <Self as Decode<SliceReader<'a>>>::Error>
        ensures ok { IfOk result (λ v. Whole (Self.is_next v) Ber bytes.now) }
        ensures complete { (v : Self) → length bytes.now < 2 ^ 32
            → Whole (Self.is_next v) Ber bytes.now → Self.decode_levels Ber ≤ 64
            → SucceedsOrLacks Self.Error.out_of_memory Self.allocates result }
        ensures exact { WholeAnswer Ber Self.decode_answers Self.Error.from_gives bytes.now result }
    {
        decode_whole(alloc, bytes, EncodingRules::Ber)
    }

    /// Decodes a value from the start of `bytes` under the Distinguished Encoding Rules. Returns
    /// the value and the octets after the value.
    ///
    /// # Errors
    ///
    /// - `Overflow` without a position, if there are more than 4294967295 octets.
    /// - The errors of the type, as by [`Decode::decode`] with a reader at the start of the octets.
    /// - `Failed` at the reader's position, if decoding the value succeeds but leaves the reader
    ///   failed.
    final fn from_der_partial(
        alloc: Global,
        bytes: &'a [u8],
    ) -> Result<(Self, &'a [u8]), <Self as Decode<SliceReader<'a>>>::Error>
        ensures ok { IfOk result (λ p. (m : ℕ) × Self.is_next p.0 Der bytes.now m
            × (m ≤ length bytes.now) × (p.1.now ≡ drop m bytes.now)) }
        ensures complete { (v : Self) (m : ℕ) → length bytes.now < 2 ^ 32
            → Self.is_next v Der bytes.now m → Self.decode_levels Der ≤ 64
            → SucceedsOrLacks Self.Error.out_of_memory Self.allocates result }
        ensures exact { PartialAnswer Der Self.decode_answers Self.Error.from_gives bytes.now
            (map_ok (λ p. (p.0, p.1.now)) result) }
    {
        let mut reader = SliceReader::new(bytes)?;
        let value = Self::decode(alloc, &mut reader)?;
        let rest = reader.remaining()?;
        Ok((value, rest))
    }
}

impl<'a, T: Decode<SliceReader<'a>>> DecodeBytes<'a> for T {}

// Decodes a value from all of the octets under these rules.
fn decode_whole<'a, T: Decode<SliceReader<'a>>>(
    alloc: Global,
    bytes: &'a [u8],
    encoding_rules: EncodingRules,
) -> Result<T, <T as Decode<SliceReader<'a>>>::Error>
    ensures ok { IfOk result (λ v. Whole (T.is_next v) encoding_rules bytes.now) }
    ensures complete { (v : T) → length bytes.now < 2 ^ 32
        → Whole (T.is_next v) encoding_rules bytes.now → T.decode_levels encoding_rules ≤ 64
        → SucceedsOrLacks T.Error.out_of_memory T.allocates result }
    ensures exact { WholeAnswer encoding_rules T.decode_answers T.Error.from_gives bytes.now
        result }
{
    let mut reader = SliceReader::new_with_encoding_rules(bytes, encoding_rules)?;
    let value = T::decode(alloc, &mut reader)?;
    reader.finish()?;
    Ok(value)
}
