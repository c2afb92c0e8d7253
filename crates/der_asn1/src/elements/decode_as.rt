//! Decoding of elements of any tag as values of other types.
ghost use Rattle.std.specs.Prelude.{◌^◌, ◌<◌, ◌≤◌, length, IfOk};
ghost use Rattle.der.specs.Decode.{SucceedsOrLacks};
ghost use Rattle.der_asn1.specs.AnyRef.{any_contents};
ghost use Rattle.der_asn1.specs.DecodesAs.{DecodesAs, IsDecodedAs};

use crate::elements::any::AnyRef;
use der::{DecodeValue, EncodingRules, FixedTag, Header, Reader, SliceReader};
use std::alloc::Global;

impl<'a> AnyRef<'a> {
    /// Decodes this element as a value of type `T`. `rules` must be the encoding rules by which the
    /// element was read.
    ///
    /// Suppose that `T` is [`Lawful`](der::Lawful), that `rules` are the Distinguished Encoding
    /// Rules, and that there are at most 4294967295 contents octets. Then decoding succeeds if and
    /// only if the element is an encoding of a valid value of `T`, unless an allocation fails.
    ///
    /// # Errors
    ///
    /// The function returns the first of these errors that applies. Positions count from the start
    /// of the contents.
    ///
    /// - `TagUnexpected` without a position, if the element does not have the tag of `T`.
    /// - `Overflow` without a position, if there are more than 4294967295 contents octets.
    /// - The errors of [`DecodeValue::decode_value`] for the type `T`.
    /// - `Failed` at the position where decoding ended, if `decode_value` returns a value but the
    ///   reader of the contents has failed.
    /// - `TrailingData` at the position after the value, if contents octets are left.
    pub fn decode_as<T: DecodeValue<SliceReader<'a>> + FixedTag>(
        &self,
        alloc: Global,
        rules: EncodingRules,
    ) -> Result<T, <T as DecodeValue<SliceReader<'a>>>::Error>
        ensures ok { IfOk result (λ v. IsDecodedAs T.tag_is T.takes self.now rules v) }
        ensures complete { (v : T) → length (any_contents self.now) < 2 ^ 32
            → IsDecodedAs T.tag_is T.takes self.now rules v → T.value_levels rules ≤ 63
            → SucceedsOrLacks T.Error.out_of_memory T.allocates result }
        ensures exact { DecodesAs T.tag_is T.decode_value_answers T.Error.from_gives self.now rules
            result }
    {
        self.tag.assert_eq(T::fixed_tag())?;
        let mut reader = SliceReader::new_with_encoding_rules(self.contents, rules)?;
        let length = reader.input_len();
        reader.enter_nested(length)?;
        let header = Header::new(self.tag, length);
        let value = T::decode_value(alloc, &mut reader, header)?;
        reader.finish()?;
        Ok(value)
    }
}
