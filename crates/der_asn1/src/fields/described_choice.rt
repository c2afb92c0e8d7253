//! CHOICE types as enums.
ghost use Rattle.std.specs.Prelude.{◌≡◌, ℕ, ◌+◌, ◌≤◌, false, true, IfOk};
ghost use Rattle.der.specs.Prelude.{Same, map_ok, rest_of};
ghost use Rattle.der.specs.Decode.{Passes, ReadsOrLacks};
ghost use Rattle.der_asn1.specs.Meaning.{AlternativeSpec};

use der::{Decode, FromFields, Reader};
use std::alloc::Global;

/// CHOICE types (X.690 8.13): enums with one variant for each alternative. For proofs, each type
/// has a specification, which is composed from the specifications of its alternatives.
///
/// An enum is decoded in two steps. First, nested [`Either`](crate::Either)s of the alternatives
/// are decoded. Then [`FromFields::from_fields`] converts them to the enum.
///
/// Ghost member (for proofs only): `alternative` is the specification. A contract in other code
/// names it as `⟦<AnyChoice as DescribedChoice>⟧.alternative`, with the type in place of
/// `AnyChoice`.
pub trait DescribedChoice: Sized {
    ghost alternative: { AlternativeSpec Self };
}

/// Decodes a value of the type `F`, and converts it to a `T` by [`FromFields::from_fields`]. If `T`
/// is an enum, `F` consists of nested [`Either`](crate::Either)s of its alternatives.
///
/// For implementors: an implementation of [`Decode::decode`] for `T` can call this function.
///
/// # Errors
///
/// The errors of [`Decode::decode`] for the type `F`.
#[inline(always)]
pub fn decode_choice<R: Reader, F: Decode<R>, T: FromFields<F>>(
    alloc: Global,
    reader: &mut R,
) -> Result<T, <F as Decode<R>>::Error>
    ensures same { Same (R.state reader.old) (R.state reader.new) }
    ensures ok { IfOk result (λ v. (R.state reader.old).failed ≡ false
        → (R.state reader.new).failed ≡ false
        → Passes (F.is_next (T.fields v)) (R.state reader.old) (R.state reader.new)) }
    ensures complete { (v : T) (m : ℕ) → R.reliable ≡ true
        → (R.state reader.old).failed ≡ false
        → F.is_next (T.fields v) (R.state reader.old).rules (rest_of (R.state reader.old)) m
        → (R.state reader.old).depth + F.decode_levels (R.state reader.old).rules ≤ 64
        → ReadsOrLacks F.Error.out_of_memory F.allocates (R.state reader.old) m result
        (R.state reader.new) }
    ensures exact { R.reliable ≡ true → F.decode_answers (R.state reader.old)
        (map_ok T.fields result) (R.state reader.new) }
{
    match F::decode(alloc, reader) {
        Ok(fields) => Ok(T::from_fields(fields)),
        Err(error) => Err(error),
    }
}
