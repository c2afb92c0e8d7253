//! DEFAULT fields.
ghost use Rattle.std.specs.Prelude.{◌≡◌, ◌↔◌, ℕ, Bool, true, List, IsTrue};
ghost use Rattle.der.specs.Prelude.{EncodingRules as Rules, Der, map_ok};
ghost use Rattle.der_asn1.specs.Default.{DefaultNext, DefaultRead, IsDefaulted, default_encoding};
ghost use Rattle.der_asn1.specs.Default.{default_size, DefaultWritten};

use crate::fields::choice::DecodeChoice;
use der::{
    Decode, Encode, EncodingRules, Error, ErrorKind, Lends, Length, Reader, ReaderExt, Writer,
};
use std::alloc::Global;

/// Types that have a default value: the value of a DEFAULT field that is absent.
///
/// Ghost member (for proofs only): `is_default` says which values are the default.
pub trait DefaultValue: Sized {
    ghost is_default: { Self → Bool };

    /// The default value: the value of a DEFAULT field that is absent.
    fn default_value() -> Self
        ensures { is_default result ≡ true };

    /// Whether `self` is the default value.
    fn has_default(&self) -> bool
        ensures { result ≡ is_default self.now };
}

/// Types that have a default value and that a reader `R` can decode.
///
/// Ghost member (for proofs only): `reported` proves that, if two values can be decoded from the
/// same octets, both are the default or neither is.
pub trait HasDefault<R: Lends>: DecodeChoice<R> + DefaultValue {
    // If two values can be decoded from the same octets, both are the default or neither is.
    ghost reported: { (v w : Self) (rules : Rules) (octets : List ℕ) (m n : ℕ)
        → Self.is_next v rules octets m → Self.is_next w rules octets n
        → Self.is_default v ≡ Self.is_default w };
}

// Whether a value was encoded although it is the default and the rules are DER.
#[inline(always)]
fn is_written_default<R: Lends, T: HasDefault<R>>(rules: EncodingRules, value: &T) -> bool
    ensures { IsTrue result ↔ ((rules ≡ Der) × (T.is_default value.now ≡ true)) }
{
    rules.is_der() && value.has_default()
}

/// A DEFAULT field. If its value is the default, DER requires that the field is absent (X.690
/// 11.5); BER also allows that the default is encoded (8.9.3).
#[derive(Clone, Copy, Drop, PartialEq, Eq)]
pub struct Defaulted<T>(pub T);

/// Decodes a value of `T`, or returns the default value without moving the reader if the field is
/// absent. The field is absent if no octets are left, or if no value of `T` may begin with the next
/// tag.
///
/// # Errors
///
/// - The errors of [`ReaderExt::peek_tag`], if octets are left but the next tag cannot be read. The
///   reader is unchanged then.
/// - The errors of decoding the value, if a value of `T` may begin with the next tag.
/// - `Noncanonical` with the tag of the value, at the position after the value, if the reader reads
///   DER and the value is the default. The reader has failed then.
impl<R: Lends, T: HasDefault<R>> Decode<R> for Defaulted<T> {
    type Error = <T as Decode<R>>::Error;

    ghost is_next = { λ v. DefaultNext T.chooses T.is_default T.is_next v.0 };

    ghost decode_levels = { T.decode_levels };

    ghost allocates = { T.allocates };

    ghost decode_answers = { λ s result t. DefaultRead T.chooses T.is_default T.Error.from_gives
        T.decode_answers s (map_ok (λ v. v.0) result) t };

    #[inline(always)]
    fn decode(alloc: Global, reader: &mut R) -> Result<Self, <T as Decode<R>>::Error>
    where
        R: Reader,
    {
        if reader.is_finished() {
            return Ok(Defaulted(T::default_value()));
        }
        let tag = reader.peek_tag()?;
        if !T::can_decode(tag) {
            return Ok(Defaulted(T::default_value()));
        }
        let value = T::decode(alloc, reader)?;
        if is_written_default(reader.encoding_rules(), &value) {
            return Err(reader.error(ErrorKind::Noncanonical { tag }).into());
        }
        Ok(Defaulted(value))
    }
}

/// Writes the value, or no octets if the value is the default.
///
/// # Errors
///
/// The errors of encoding the value.
impl<T: Encode + DefaultValue> Encode for Defaulted<T> {
    ghost encoding = { λ v. default_encoding T.is_default T.encoding v.0 };

    ghost encodable = { λ v. IsDefaulted T.is_default T.encodable v.0 };

    ghost size = { λ v. default_size T.is_default T.size v.0 };

    ghost encode_answers = { λ v. DefaultWritten T.is_default T.encode_answers v.0 };

    #[inline(always)]
    fn encoded_len(&self) -> Result<Length, Error> {
        if self.0.has_default() {
            return Ok(Length::ZERO);
        }
        self.0.encoded_len()
    }

    #[inline(always)]
    fn encode<W: Writer>(&self, writer: &mut W) -> Result<(), Error> {
        if self.0.has_default() {
            return Ok(());
        }
        self.0.encode(writer)
    }

    #[inline(always)]
    fn len_before(&self) -> Option<u32> {
        if self.0.has_default() {
            return Some(0);
        }
        self.0.len_before()
    }

    #[inline(always)]
    fn encode_before(&self, buf: &mut [u8], end: u32) -> u32 {
        if self.0.has_default() {
            return end;
        }
        self.0.encode_before(buf, end)
    }
}
