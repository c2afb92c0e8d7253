//! DEFAULT fields whose default is given by contents octets.
ghost use Rattle.std.specs.Prelude.{◌≡◌, ◌↔◌, ◌^◌, ◌<◌, ◌≤◌, true, length, IsTrue};
ghost use Rattle.der.specs.Prelude.{Der, ElementNext, ElementRead, element_levels, map_ok};
ghost use Rattle.der_asn1.specs.Default.{DefaultNext, DefaultRead, IsDefaulted, default_encoding};
ghost use Rattle.der_asn1.specs.Default.{default_size, DefaultWritten};
ghost use Rattle.der_asn1.specs.DefaultedTo.{has_contents};
ghost use Rattle.der_asn1.specs.Follow.{this_tag};

use crate::defaults::with_default::DefaultOf;
use crate::fields::choice::Choice;
use der::{
    Decode, DecodeValue, Encode, EncodeValue, EncodingRules, Error, ErrorKind, Lawful, Lends,
    Length, Reader, ReaderExt, Writer, WrittenValue, decode_tlv, encode_value_to_slice,
};
use std::alloc::Global;
use std::marker::PhantomData;

/// Types that stand for the default value of a DEFAULT field of type `T` (see [`DefaultedTo`]). A
/// value is the default if its contents octets are the contents octets of the default. So `T` need
/// not implement `PartialEq`; it may be a SEQUENCE, for example.
pub trait DefaultEncoding<T: WrittenValue>: DefaultOf<T> {
    /// Whether `value` is the default, which means that it has the same contents octets as the
    /// default. An implementation can call [`has_contents`] to compare them.
    fn is_default(value: &T) -> bool
        ensures { result ≡ has_contents T.contents Self.DefaultOf.default_contents value.now };
}

/// Whether the contents octets of `value` are `octets`. To compare them, the function writes the
/// contents octets of `value` into `buffer`. The caller must ensure that `value` can be written,
/// that there are at most 4294967295 `octets`, and that `buffer` has at least as many octets as
/// `octets`.
pub fn has_contents<T: EncodeValue>(value: &T, octets: &[u8], buffer: &mut [u8]) -> bool
    requires writable { T.writable value.now }
    requires counted { length octets.now < 2 ^ 32 }
    requires space { length octets.now ≤ length buffer.old }
    ensures { result ≡ has_contents T.contents octets.now value.now }
{
    let Ok(len) = value.value_len() else {
        return false;
    };
    if u32::from(len) as usize != octets.len() {
        return false;
    }
    match encode_value_to_slice(buffer, value) {
        Ok(written) => written == octets,
        Err(_) => false,
    }
}

/// A DEFAULT field whose default `D` is recognized by its contents octets. If the field is absent,
/// its value is the default. If the value is the default, DER requires that the field is absent
/// (X.690 11.5); BER also allows that the default is encoded (X.690 8.9.3).
#[derive(Drop)]
#[derive_where(Debug, PartialEq, Eq; T)]
pub struct DefaultedTo<T, D>(pub T, PhantomData<D>);

impl<T, D> DefaultedTo<T, D> {
    /// The field with the value `value`, which may be the default.
    #[inline(always)]
    pub fn new(value: T) -> Self
        ensures { result.0 ≡ value }
    {
        DefaultedTo(value, PhantomData)
    }
}

// Whether a value was encoded although it is the default and the rules are DER.
#[inline(always)]
fn is_written_default<T: WrittenValue, D: DefaultEncoding<T>>(
    rules: EncodingRules,
    value: &T,
) -> bool
    ensures { IsTrue result ↔ ((rules ≡ Der)
        × (has_contents T.contents D.default_contents value.now ≡ true)) }
{
    rules.is_der() && D::is_default(value)
}

/// Decodes a value of `T`, or returns the default value without moving the reader if the field is
/// absent. The field is absent if no octets are left, or if the next tag is not the tag of `T`.
///
/// # Errors
///
/// - The errors of [`ReaderExt::peek_tag`], if octets are left but the next tag cannot be read. The
///   reader is unchanged then.
/// - The errors of [`decode_tlv`] for the value, if the next tag is the tag of `T`.
/// - `Noncanonical` with the tag of the value, at the position after the value, if the reader reads
///   DER and the value is the default. The reader has failed then.
impl<R: Lends, T: DecodeValue<R> + Lawful, D: DefaultEncoding<T>> Decode<R> for DefaultedTo<T, D> {
    type Error = <T as DecodeValue<R>>::Error;

    ghost is_next = { λ v. DefaultNext (this_tag T.tag_is)
        (has_contents T.contents D.default_contents) (ElementNext T.tag_is T.takes) v.0 };

    ghost decode_levels = { element_levels T.value_levels };

    ghost allocates = { T.allocates };

    ghost decode_answers = { λ s result t. DefaultRead (this_tag T.tag_is)
        (has_contents T.contents D.default_contents) T.Error.from_gives
        (ElementRead T.tag_is T.Error.from_gives T.decode_value_answers) s
        (map_ok (λ v. v.0) result) t };

    #[inline(always)]
    fn decode(alloc: Global, reader: &mut R) -> Result<Self, <T as DecodeValue<R>>::Error>
    where
        R: Reader,
    {
        if reader.is_finished() {
            return Ok(DefaultedTo(D::default_value(), PhantomData));
        }
        let tag = reader.peek_tag()?;
        if !<T as Choice>::can_decode(tag) {
            return Ok(DefaultedTo(D::default_value(), PhantomData));
        }
        let value = decode_tlv::<R, T>(alloc, reader)?;
        if is_written_default::<T, D>(reader.encoding_rules(), &value) {
            return Err(reader.error(ErrorKind::Noncanonical { tag }).into());
        }
        Ok(DefaultedTo(value, PhantomData))
    }
}

/// Writes the value, or no octets if the value is the default.
///
/// # Errors
///
/// The errors of encoding the value.
impl<T: Encode + WrittenValue, D: DefaultEncoding<T>> Encode for DefaultedTo<T, D> {
    ghost encoding = { λ v. default_encoding (has_contents T.contents D.default_contents)
        T.encoding v.0 };

    ghost encodable = { λ v. IsDefaulted (has_contents T.contents D.default_contents)
        T.encodable v.0 };

    ghost size = { λ v. default_size (has_contents T.contents D.default_contents) T.size v.0 };

    ghost encode_answers = { λ v. DefaultWritten (has_contents T.contents D.default_contents)
        T.encode_answers v.0 };

    #[inline(always)]
    fn encoded_len(&self) -> Result<Length, Error> {
        if D::is_default(&self.0) {
            return Ok(Length::ZERO);
        }
        self.0.encoded_len()
    }

    #[inline(always)]
    fn encode<W: Writer>(&self, writer: &mut W) -> Result<(), Error> {
        if D::is_default(&self.0) {
            return Ok(());
        }
        self.0.encode(writer)
    }

    #[inline(always)]
    fn len_before(&self) -> Option<u32> {
        if D::is_default(&self.0) {
            return Some(0);
        }
        self.0.len_before()
    }

    #[inline(always)]
    fn encode_before(&self, buf: &mut [u8], end: u32) -> u32 {
        if D::is_default(&self.0) {
            return end;
        }
        self.0.encode_before(buf, end)
    }
}
