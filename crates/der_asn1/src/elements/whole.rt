//! Decoding of a value from octets that must be its whole DER encoding.
ghost use Rattle.std.specs.Prelude.{◌≡◌, ◌^◌, ◌<◌, length, IfOk};
ghost use Rattle.der.specs.Decode.{SucceedsOrLacks, WholeAnswer};
ghost use Rattle.der.specs.Prelude.{Der, ElementRead, element_octets};

use der::{DecodeBytes, DecodeValue, Lawful, SliceReader};
use std::alloc::Global;

/// Decodes the value whose DER encoding is all of `octets`.
///
/// Suppose that there are at most 4294967295 octets and that no allocation fails. Then decoding
/// succeeds if and only if `octets` are the encoding of a valid value of `T`. This holds because
/// `T` is [`Lawful`]: the contents of a lawful type are read as they are written.
///
/// # Errors
///
/// The errors of [`DecodeBytes::from_der`].
pub fn lawful_from_der<'a, T: Lawful + DecodeValue<SliceReader<'a>>>(
    alloc: Global,
    octets: &'a [u8],
) -> Result<T, <T as DecodeValue<SliceReader<'a>>>::Error>
    ensures ok { IfOk result (λ v. T.valid v
        × (octets.now ≡ element_octets T.tag_is (T.contents v))) }
    ensures complete { (v : T) → length octets.now < 2 ^ 32 → T.valid v
        → octets.now ≡ element_octets T.tag_is (T.contents v)
        → SucceedsOrLacks T.Error.out_of_memory T.allocates result }
    ensures exact { WholeAnswer Der (ElementRead T.tag_is T.Error.from_gives T.decode_value_answers)
        T.Error.from_gives octets.now result }
{
    T::from_der(alloc, octets)
}
