//! Headers.
ghost use Rattle.std.specs.Prelude.{◌≡◌, ◌||◌, false, true, length, Ok};
ghost use Rattle.der_base.specs.ScanGrammar.{BodyFault};
ghost use Rattle.der_base.specs.HeaderGrammar.{HeaderFault, head, header_octets};
ghost use Rattle.der_base.specs.Length.{number, is_indefinite, definite_length};
ghost use Rattle.der_base.specs.Tag.{label};
ghost use Rattle.der_core.specs.AfterFirstOctet.{IsGuess, AreNext, RawHeadNext};
ghost use Rattle.der_core.specs.Decode.{Decodes, Peeks, grammar_levels};
ghost use Rattle.der_core.specs.Encode.{FitsCounted, header_outcome};
ghost use Rattle.der_core.specs.Header.{head_of, HeaderNext};
ghost use Rattle.der_core.specs.Identifier.{tag_of, is_constructed_identifier};
ghost use Rattle.der_core.specs.Writer.{Keeps, Appends, Writes};
ghost use Rattle.der_base.specs.Order.{byte_order};
ghost use Rattle.der_base.proofs.DelimitedLemmas.{headers_delimited};

use crate::decode::Decode;
use crate::encode::Encode;
use crate::identifier::{Identifier, is_identifier};
use crate::length::{INDEFINITE, decode_length_after};
use crate::ord::DerOrd;
use crate::reader::{Lends, Octets, Reader, ReaderExt};
use crate::tag::first_octet_of;
use crate::writer::Writer;
use der_base::{Error, ErrorKind, Length, Tag};
use std::alloc::Global;
use std::cmp::Ordering;

/// The header of an element: its tag, the length of its contents, and whether the identifier has
/// the constructed bit (X.690 8.1.2, 8.1.3).
#[derive(Clone, Copy, Debug, PartialEq, Eq)]
pub struct Header {
    tag: Tag,
    length: Length,
    constructed: bool,
}

impl Header {
    ghost use Rattle.der_core.specs.Header.{header_sans_eoc};

    /// Creates a header with the tag `tag` and the length `length`. The constructed bit of the
    /// header is set if `tag` has the constructed bit, or if `length` was read in the indefinite
    /// form.
    pub fn new(tag: Tag, length: Length) -> Self
        ensures { head_of result ≡ head tag length
            ((label tag).constructed || is_indefinite length) }
    {
        let constructed = tag.is_constructed() || length.is_indefinite();
        Header {
            tag,
            length,
            constructed,
        }
    }

    /// The tag of the element.
    pub fn tag(&self) -> Tag
        ensures { result ≡ (head_of self.now).tag }
    {
        self.tag
    }

    /// The length of the contents. In a header from [`Header::decode`], a length that was read in
    /// the indefinite form also counts the two end-of-contents octets ([`Length::sans_eoc`]
    /// subtracts them). In the header that
    /// [`DecodeValue::decode_value`](crate::DecodeValue::decode_value) gets, the length does not
    /// count them.
    pub fn length(&self) -> Length
        ensures { result ≡ (head_of self.now).length }
    {
        self.length
    }

    /// Whether the identifier has the constructed bit.
    pub fn is_constructed(&self) -> bool
        ensures { result ≡ (head_of self.now).constructed }
    {
        self.constructed
    }

    /// A copy of the header with the length `length`; tag and constructed bit are kept.
    pub fn with_length(&self, length: Length) -> Self
        ensures { head_of result ≡ head (head_of self.now).tag length
            (head_of self.now).constructed }
    {
        Header {
            tag: self.tag,
            length,
            constructed: self.constructed,
        }
    }

    // The header with the length of the contents alone, without the end-of-contents octets.
    pub(crate) fn contents(self) -> Self
        ensures { result ≡ header_sans_eoc self }
    {
        self.with_length(self.length.sans_eoc())
    }
}

/// Decodes a header (X.690 8.1.2, 8.1.3, 10.1). Does the same as [`Header::decode`], but takes no
/// allocator, because decoding a header allocates nothing.
///
/// # Errors
///
/// `Failed`, `Overflow`, `Incomplete`, `TagUnknown`, `TagNumberInvalid`, `IndefiniteLength`,
/// `NestingDepth` and `Length`, as by [`Header::decode`].
#[inline(always)]
pub fn decode_header<R: Reader>(reader: &mut R) -> Result<Header, Error>
    ensures { Decodes HeaderNext (HeaderFault BodyFault) R.reliable (R.state reader.old) result
        (R.state reader.new) }
{
    let (identifier, length) = decode_parts(reader)?;
    Ok(header_from_identifier(identifier, length, None))
}

// Decodes a header with a guess at its tag, always octet by octet: this keeps a value decoder that
// calls it small enough to be inlined.
#[inline(always)]
pub(crate) fn decode_guessed_header<R: Reader>(
    reader: &mut R,
    guess: Option<(u8, Tag)>,
) -> Result<Header, Error>
    requires { IsGuess guess }
    ensures { Decodes HeaderNext (HeaderFault BodyFault) R.reliable (R.state reader.old) result
        (R.state reader.new) }
{
    let (identifier, length) = decode_in_pieces(reader)?;
    Ok(header_from_identifier(identifier, length, guess))
}

// The header with this identifier, and with a guess at its tag.
#[inline(always)]
fn header_from_identifier(
    identifier: Identifier,
    length: Length,
    guess: Option<(u8, Tag)>,
) -> Header
    requires { IsGuess guess }
    ensures { head_of result ≡ head (tag_of identifier) length (is_constructed_identifier identifier) }
{
    let constructed = identifier.is_constructed();
    Header {
        tag: identifier.guessed_tag(guess),
        length,
        constructed,
    }
}

// Decodes a header and returns its identifier and its length. If the reader returns slices, an
// identifier and a length of one octet each are read at once.
#[inline(always)]
fn decode_parts<R: Reader>(reader: &mut R) -> Result<(Identifier, Length), Error>
    ensures { Decodes RawHeadNext (HeaderFault BodyFault) R.reliable (R.state reader.old)
        result (R.state reader.new) }
{
    if let Some((first, count)) = short_header(reader) {
        let _ = reader.read_slice(Length::new(2))?;
        let number = (first % 32) as u32;
        return Ok((Identifier { first, number }, Length::new(count as u32)));
    }
    decode_in_pieces(reader)
}

// Decodes a header octet by octet, with the same results.
#[inline(always)]
fn decode_in_pieces<R: Reader>(reader: &mut R) -> Result<(Identifier, Length), Error>
    ensures { Decodes RawHeadNext (HeaderFault BodyFault) R.reliable (R.state reader.old)
        result (R.state reader.new) }
{
    let identifier = Identifier::decode(reader)?;
    let length = decode_length_after(reader, Some(identifier))?;
    if length.is_indefinite() && !identifier.is_constructed() {
        return Err(reader.error(ErrorKind::IndefiniteLength));
    }
    Ok((identifier, length))
}

// The next identifier and length, if each has one octet and the reader returns slices.
#[inline(always)]
fn short_header<R: Reader>(reader: &R) -> Option<(u8, u8)>
    ensures { AreNext (R.state reader.now) result }
{
    let Ok(borrowed) = reader.remaining() else {
        return None;
    };
    let octets = borrowed.as_slice();
    if octets.len() < 2 {
        return None;
    }
    let (first, count) = (octets[0], octets[1]);
    if count < INDEFINITE && is_identifier(first) {
        Some((first, count))
    } else {
        None
    }
}

impl<R: Lends> Decode<R> for Header {
    type Error = Error;

    ghost is_next = { HeaderNext };

    ghost decode_levels = { grammar_levels };

    ghost allocates = { false };

    ghost decode_answers = { Decodes HeaderNext (HeaderFault BodyFault) true };

    /// Decodes a header (X.690 8.1.2, 8.1.3, 10.1). Under the Basic Encoding Rules octet `0x24` is
    /// also an identifier, and octet `0x80` after a constructed identifier is an indefinite length.
    /// The length in the result is then the number of octets of the body that follows, including
    /// its end-of-contents octets; the reader stays after octet `0x80` (X.690 8.1.3.6).
    ///
    /// # Errors
    ///
    /// After all but `Failed`, `Overflow` and the errors of the scan for the end of an indefinite
    /// length, the reader is at the error's position and failed.
    ///
    /// - `Failed` at the reader's position, if the reader had already failed; the reader is
    ///   unchanged.
    /// - `Overflow` without a position, if an octet is missing at position 4294967295; the reader
    ///   is there and has not failed.
    /// - `Incomplete` at the end, if an octet is missing at any other position.
    /// - `TagUnknown`, which holds the first octet, at the position after this octet, if no tag
    ///   begins with it.
    /// - `TagNumberInvalid` in two cases: at the position after the first octet, if this octet is
    ///   `0x1F`; and at the position after a later octet, if no tag number continues with that
    ///   octet (X.690 8.1.2.4).
    /// - `IndefiniteLength` at the position after the first length octet, if this octet is `0x80`
    ///   and the reader uses the Distinguished Encoding Rules. Also at that position, if the reader
    ///   uses the Basic Encoding Rules, the octet is `0x80`, the identifier is primitive, and the
    ///   scan finds a complete body.
    /// - `NestingDepth` and the other errors of the scan that follows octet `0x80`, as by
    ///   [`decode_indefinite_length`](crate::decode_indefinite_length), under the Basic Encoding
    ///   Rules; the reader is after octet `0x80` and has not failed.
    /// - `Length`, which holds the tag, in two cases: at the position after the length octets, if
    ///   fewer length octets would suffice; and at the position after the first length octet, if
    ///   this octet announces more than four others.
    #[inline(always)]
    fn decode(_alloc: Global, reader: &mut R) -> Result<Header, Error>
    where
        R: Reader,
        ensures { Decodes HeaderNext (HeaderFault BodyFault) R.reliable (R.state reader.old)
            result (R.state reader.new) }
    {
        decode_header(reader)
    }
}

impl Header {
    /// The next header, decoded without moving the reader.
    ///
    /// # Errors
    ///
    /// `Failed`, `Overflow`, `Incomplete`, `TagUnknown`, `TagNumberInvalid`, `IndefiniteLength`,
    /// `NestingDepth` and `Length`, as by [`Header::decode`] and with the same positions; the
    /// reader is unchanged.
    pub fn peek<R: Reader>(reader: &R) -> Result<Self, Error>
        ensures { Peeks HeaderNext (HeaderFault BodyFault) R.reliable (R.state reader.now)
            result }
    {
        reader.peek_header()
    }
}

impl Header {
    // Writes the tag octet by octet, and then the length.
    #[inline(always)]
    fn encode_in_pieces<W: Writer>(&self, writer: &mut W) -> Result<(), Error>
        ensures kept { Keeps (W.state writer.old) (W.state writer.new) }
        ensures ok { Appends (W.state writer.old)
            (header_octets (head_of self.now).tag (number (head_of self.now).length)) result
            (W.state writer.new) }
        ensures succeeds { FitsCounted (W.state writer.old)
            (header_octets (head_of self.now).tag (number (head_of self.now).length)) result }
        ensures exact { W.reliable ≡ true → Writes
            (header_outcome (head_of self.now).tag (number (head_of self.now).length)
            (W.state writer.old)) result (W.state writer.new) }
    {
        self.tag().encode(writer)?;
        self.length().encode(writer)
    }
}

// Writes the header of an element with this tag and length. A header of more than two octets is
// written by a separate function, so that the writer of an element is small enough to be inlined.
#[inline(always)]
pub(crate) fn encode_header<W: Writer>(tag: Tag, len: Length, writer: &mut W) -> Result<(), Error>
    ensures kept { Keeps (W.state writer.old) (W.state writer.new) }
    ensures ok { Appends (W.state writer.old) (header_octets tag (number len)) result
        (W.state writer.new) }
    ensures succeeds { FitsCounted (W.state writer.old) (header_octets tag (number len)) result }
    ensures exact { W.reliable ≡ true
        → Writes (header_outcome tag (number len) (W.state writer.old)) result
        (W.state writer.new) }
{
    let low = tag.number().0;
    let count = u32::from(len);
    if low < 31 && count < 0x80 {
        let first = first_octet_of(tag, low as u8);
        if writer.has_space(2) {
            // this is known to succeed
            let _ = writer.write(&[first, count as u8]);
            return Ok(());
        }
        return Header::new(tag, len).encode_in_pieces(writer);
    }
    encode_long_header(tag, len, writer)
}

// Does the same, but is never inlined.
#[inline(never)]
fn encode_long_header<W: Writer>(tag: Tag, len: Length, writer: &mut W) -> Result<(), Error>
    ensures kept { Keeps (W.state writer.old) (W.state writer.new) }
    ensures ok { Appends (W.state writer.old) (header_octets tag (number len)) result
        (W.state writer.new) }
    ensures succeeds { FitsCounted (W.state writer.old) (header_octets tag (number len)) result }
    ensures exact { W.reliable ≡ true
        → Writes (header_outcome tag (number len) (W.state writer.old)) result
        (W.state writer.new) }
{
    Header::new(tag, len).encode(writer)
}

/// Writes the identifier octets of the tag, with the constructed bit of the tag, and then the
/// length in the definite form. Whether the length was read in the indefinite form, and the
/// constructed bit of the header, are ignored.
///
/// # Errors
///
/// [`Encode::encoded_len`] never fails. [`Encode::encode`] returns the writer's errors, as by
/// [`Writer::write`]; the octets that it wrote before the error remain.
impl Encode for Header {
    ghost encoding = { λ h. header_octets (head_of h).tag (number (head_of h).length) };

    ghost encodable = { λ _. Unit {0} };

    ghost size = { λ h. Ok (definite_length (length
        (header_octets (head_of h).tag (number (head_of h).length)))) };

    ghost encode_answers = { λ h s r t.
        Writes (header_outcome (head_of h).tag (number (head_of h).length) s) r t };

    fn encoded_len(&self) -> Result<Length, Error> {
        let count = self.tag().octet_count() + self.length().octet_count();
        Ok(Length::new(count))
    }

    #[inline(always)]
    fn encode<W: Writer>(&self, writer: &mut W) -> Result<(), Error> {
        let number = self.tag.number().0;
        if number < 31 {
            let first = first_octet_of(self.tag, number as u8);
            let length = u32::from(self.length);
            let (high, low) = ((length / 256 % 256) as u8, (length % 256) as u8);
            let count = self.length.octet_count();
            if count == 1 && writer.has_space(2) {
                return writer.write(&[first, low]);
            }
            if count == 2 && writer.has_space(3) {
                return writer.write(&[first, 0x81, low]);
            }
            if count == 3 && writer.has_space(4) {
                return writer.write(&[first, 0x82, high, low]);
            }
        }
        self.encode_in_pieces(writer)
    }
}

/// Compares two headers: first the identifier octets of their tags, octet by octet; if the
/// identifier octets are equal, the lengths as numbers. The constructed bit of the header, and
/// whether its length was read in the indefinite form, are ignored. Never fails.
impl DerOrd for Header {
    ghost order = { λ h g. Ok (byte_order
        (header_octets (head_of h).tag (number (head_of h).length))
        (header_octets (head_of g).tag (number (head_of g).length))) };

    ghost octets = { λ h. header_octets (head_of h).tag (number (head_of h).length) };

    ghost by_octets = { λ _ _. Unit {0} };

    ghost has_header = { λ _. Unit {0} };

    ghost delimits = { Unit {0} };

    ghost delimited = { λ _. headers_delimited head_of };

    #[inline(always)]
    #[tactic(auto, using(der_base::proofs::OrderLemmas::header_order))]
    fn der_cmp(&self, other: &Self) -> Result<Ordering, Error> {
        match self.tag().der_cmp(&other.tag())? {
            Ordering::Equal => self.length().der_cmp(&other.length()),
            ordering => Ok(ordering),
        }
    }
}
