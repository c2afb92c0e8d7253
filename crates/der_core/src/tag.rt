//! Tags.
ghost use Rattle.std.specs.Prelude.{◌≡◌, ◌^◌, ◌<◌, ◌≤◌, true, false, length, Ok};
ghost use Rattle.der_base.specs.Length.{definite_length};
ghost use Rattle.der_base.specs.Tag.{label, leading_octet, tag_octets, IdentifierFault};
ghost use Rattle.der_base.specs.HeaderGrammar.{IdentifierNext, TagNext};
ghost use Rattle.der_core.specs.Decode.{Decodes, grammar_levels};
ghost use Rattle.der_core.specs.Encode.{single_octets, high_digits, tag_outcome};
ghost use Rattle.der_core.specs.Writer.{Writes, Keeps, Appends, Fits, write_pieces};
ghost use Rattle.std.specs.Int.Digits.{number_from_digits, number_from_digits_after};
ghost use Rattle.der_base.specs.Order.{byte_order};
ghost use Rattle.der_base.proofs.DelimitedLemmas.{tags_delimited};
ghost use Rattle.der_core.specs.DerOrd.{six_octets};

pub mod fixed;
mod peek;

use crate::decode::Decode;
use crate::encode::Encode;
use crate::identifier::Identifier;
use crate::ord::DerOrd;
use crate::reader::{Lends, Reader};
use crate::writer::Writer;
use der_base::{Error, Length, Tag};
pub use peek::TagPeek;
use std::alloc::Global;
use std::cmp::Ordering;

// Decodes a tag (X.690 8.1.2) and returns it with the constructed bit of its identifier.
#[inline(always)]
pub(crate) fn decode_with_constructed_bit<R: Reader>(reader: &mut R) -> Result<(Tag, bool), Error>
    ensures { Decodes IdentifierNext IdentifierFault R.reliable (R.state reader.old) result
        (R.state reader.new) }
{
    let identifier = Identifier::decode(reader)?;
    Ok((identifier.tag(), identifier.is_constructed()))
}

// Decodes a tag (X.690 8.1.2), as `Tag::decode` does, without an allocator.
#[inline(always)]
pub(crate) fn decode_tag<R: Reader>(reader: &mut R) -> Result<Tag, Error>
    ensures { Decodes TagNext IdentifierFault R.reliable (R.state reader.old) result
        (R.state reader.new) }
{
    let (tag, _) = decode_with_constructed_bit(reader)?;
    Ok(tag)
}

impl<R: Lends> Decode<R> for Tag {
    type Error = Error;

    ghost is_next = { TagNext };

    ghost decode_levels = { grammar_levels };

    ghost allocates = { false };

    ghost decode_answers = { Decodes TagNext IdentifierFault true };

    /// Decodes a tag (X.690 8.1.2). Under the Basic Encoding Rules octet `0x24` is also read as the
    /// tag OCTET STRING (X.690 8.7.1).
    ///
    /// # Errors
    ///
    /// After all but `Failed` and `Overflow`, the reader is at the error's position and failed.
    ///
    /// - `Failed` at the reader's position, if the reader had already failed; the reader is
    ///   unchanged.
    /// - `Overflow` without a position, if an octet is missing at position 4294967295; the reader
    ///   is there and has not failed.
    /// - `Incomplete` at the end, if an octet is missing at any other position.
    /// - `TagUnknown`, which holds the first octet, at the position after this octet, if no tag
    ///   begins with it.
    /// - `TagNumberInvalid` in two cases: at the position after the first octet, if this octet is
    ///   `0x1F`; and at the position after a later octet, if no tag number continues with that
    ///   octet (X.690 8.1.2.4).
    #[inline(always)]
    fn decode(_alloc: Global, reader: &mut R) -> Result<Tag, Error>
    where
        R: Reader,
        ensures { Decodes TagNext IdentifierFault R.reliable (R.state reader.old) result
            (R.state reader.new) }
    {
        decode_tag(reader)
    }
}

/// Writes the identifier octets of a tag, one by one (X.690 8.1.2).
///
/// # Errors
///
/// [`Encode::encoded_len`] never fails. [`Encode::encode`] returns the writer's errors, as by
/// [`Writer::write`]; the octets that it wrote before the error remain.
impl Encode for Tag {
    ghost encoding = { tag_octets };

    ghost encodable = { λ _. Unit {0} };

    ghost size = { λ t. Ok (definite_length (length (tag_octets t))) };

    ghost encode_answers = { λ t s r u. Writes (tag_outcome t s) r u };

    fn encoded_len(&self) -> Result<Length, Error> {
        Ok(Length::new(self.octet_count()))
    }

    #[inline(always)]
    fn encode<W: Writer>(&self, writer: &mut W) -> Result<(), Error> {
        let number = self.number().0;
        if number < 31 {
            return writer.write_byte(first_octet_of(*self, number as u8));
        }
        writer.write_byte(first_octet_of(*self, 31))?;
        encode_high_digits(number / 128, writer)?;
        writer.write_byte((number % 128) as u8)
    }
}

// The first octet of a tag, with these five low bits.
#[inline(always)]
pub(crate) fn first_octet_of(tag: Tag, low: u8) -> u8
    requires { low < 32 }
    ensures { result ≡ leading_octet (label tag) low }
{
    let (class, constructed) = match tag {
        Tag::Application { constructed, .. } => (0x40, constructed),
        Tag::ContextSpecific { constructed, .. } => (0x80, constructed),
        Tag::Private { constructed, .. } => (0xC0, constructed),
        Tag::Sequence | Tag::Set => (0, true),
        _ => (0, false),
    };
    class + if constructed { 0x20 } else { 0 } + low
}

// Writes the digits of a number in base 128, the most significant first, with bit 8 set on each
// (X.690 8.1.2.4.2).
fn encode_high_digits<W: Writer>(number: u32, writer: &mut W) -> Result<(), Error>
    ensures kept { Keeps (W.state writer.old) (W.state writer.new) }
    ensures ok { Appends (W.state writer.old) (high_digits number) result (W.state writer.new) }
    ensures succeeds { Fits (W.state writer.old) (high_digits number) result }
    ensures exact { W.reliable ≡ true → Writes
        (write_pieces (single_octets (high_digits number)) (W.state writer.old)) result
        (W.state writer.new) }
{
    if number == 0 {
        return Ok(());
    }
    encode_high_digits(number / 128, writer)?;
    writer.write_byte(128 + (number % 128) as u8)
}

/// Compares the identifier octets of two tags, octet by octet (X.690 8.1.2). This order differs
/// from that of the tag numbers, and from the `Ord` of tags. Never fails.
impl DerOrd for Tag {
    ghost order = { λ t u. Ok (byte_order (tag_octets t) (tag_octets u)) };

    ghost octets = { tag_octets };

    ghost by_octets = { λ _ _. Unit {0} };

    ghost has_header = { λ _. Unit {0} };

    ghost delimits = { Unit {0} };

    ghost delimited = { λ _. tags_delimited };

    #[inline(always)]
    fn der_cmp(&self, other: &Self) -> Result<Ordering, Error> {
        if *self == *other {
            return Ok(Ordering::Equal);
        }
        Ok(left_aligned(*self).cmp(&left_aligned(*other)))
    }
}

// The identifier octets of a tag, padded with zeros to six octets, as one number with the first
// octet the most significant.
fn left_aligned(tag: Tag) -> u64
    ensures number { result ≡ number_from_digits 256 (six_octets (tag_octets tag)) }
    ensures few { length (tag_octets tag) ≤ 6 }
{
    octets_number(tag) << (8 * (6 - tag.octet_count()))
}

// The identifier octets of a tag (X.690 8.1.2) as one number.
fn octets_number(tag: Tag) -> u64
    ensures { result ≡ number_from_digits 256 (tag_octets tag) }
{
    let number = tag.number().0;
    if number < 31 {
        return first_octet_of(tag, number as u8) as u64;
    }
    let first = first_octet_of(tag, 31) as u64;
    with_high_digits(first, number / 128) * 256 + (number % 128) as u64
}

// An octet followed by the base-128 digits of a number, with bit 8 set on each (X.690 8.1.2.4.2),
// as one number.
fn with_high_digits(octet: u64, number: u32) -> u64
    requires one { octet < 256 }
    requires few { number < 2 ^ 25 }
    ensures { result ≡ number_from_digits_after 256 octet (high_digits number) }
{
    if number == 0 {
        return octet;
    }
    with_high_digits(octet, number / 128) * 256 + (128 + number % 128) as u64
}
