//! Elements whose type has no fixed tag.
ghost use Rattle.std.specs.Prelude.{◌≡◌, ℕ, ◌+◌, ◌≤◌, true, false, IfOk};
ghost use Rattle.der.specs.Prelude.{rest_of, Same, element_levels, head_of};
ghost use Rattle.der.specs.Decode.{Passes, ReadsOrLacks};
ghost use Rattle.der.specs.DecodeValue.{ContentsNext, EndsOrLacks, TakesContents};
ghost use Rattle.der_asn1.specs.AnyElement.{AnyElementNext, AnyElementRead};

use der::{DecodeValue, Header, Reader, decode_header, read_value};
use std::alloc::Global;

/// Decodes an element with any tag that `T` accepts. The function decodes the header and the
/// contents. After a header with an indefinite length, it also reads the end-of-contents octets.
/// The ghost member `takes` of `T`, which is for proofs only, says which tags `T` accepts.
///
/// For implementors: a type without a fixed tag, such as ANY, implements `decode` by calling this
/// function.
///
/// # Errors
///
/// - The errors of [`decode_header`].
/// - The errors of [`read_value`], which reads the contents.
#[inline(always)]
pub fn decode_element<R: Reader, T: DecodeValue<R>>(
    alloc: Global,
    reader: &mut R,
) -> Result<T, <T as DecodeValue<R>>::Error>
    ensures same { Same (R.state reader.old) (R.state reader.new) }
    ensures ok { IfOk result (λ v. (R.state reader.new).failed ≡ false
        → Passes (AnyElementNext T.takes v) (R.state reader.old) (R.state reader.new)) }
    ensures complete { (v : T) (m : ℕ) → R.reliable ≡ true
        → (R.state reader.old).failed ≡ false
        → AnyElementNext T.takes v (R.state reader.old).rules (rest_of (R.state reader.old)) m
        → (R.state reader.old).depth + element_levels T.value_levels (R.state reader.old).rules ≤ 64
        → ReadsOrLacks T.Error.out_of_memory T.allocates (R.state reader.old) m result
        (R.state reader.new) }
    ensures exact { R.reliable ≡ true
        → AnyElementRead T.Error.from_gives T.decode_value_answers (R.state reader.old) result
        (R.state reader.new) }
{
    let header = decode_header(reader)?;
    read_value(
        reader,
        header,
        |reader: &mut R, header: Header| -> Result<T, <T as DecodeValue<R>>::Error>
            ensures same { Same (R.state reader.old) (R.state reader.new) }
            ensures sound { TakesContents T.takes (head_of header) (R.state reader.old) result
                (R.state reader.new) }
            ensures complete { (v : T) → R.reliable ≡ true
                → ContentsNext (T.takes v) (head_of header) (R.state reader.old)
                → (R.state reader.old).depth + T.value_levels (R.state reader.old).rules ≤ 64
                → EndsOrLacks T.Error.out_of_memory T.allocates result (R.state reader.new) }
            ensures exact { R.reliable ≡ true → T.decode_value_answers (head_of header)
                (R.state reader.old) result (R.state reader.new) }
        { T::decode_value(alloc, reader, header) },
    )
}
