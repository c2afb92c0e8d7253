//! Lengths.
ghost use Rattle.std.specs.Prelude.{◌≡◌, ◌+◌, ◌-◌, ◌^◌, ◌<◌, ◌≤◌, true, false, length, max, Ok, IfOk, IfErr};
ghost use Rattle.der_base.specs.ScanGrammar.{BodyFault};
ghost use Rattle.der_base.specs.Length.{number, definite_length, length_octets};
ghost use Rattle.der_base.specs.HeaderGrammar.{LengthNext, LengthFault};
ghost use Rattle.der_base.specs.declared.error.ErrorKind.TheVariants.{Overlength};
ghost use Rattle.der_core.specs.AfterFirstOctet.{DefiniteAfter, IsIndefiniteForm, RefusesIndefinite, RefusesLongLength, wrong_length_kind};
ghost use Rattle.der_core.specs.Decode.{Decodes, grammar_levels};
ghost use Rattle.der_core.specs.Encode.{length_outcome};
ghost use Rattle.der_core.specs.Identifier.{tag_if_known};
ghost use Rattle.der_core.specs.ReaderState.{Same};
ghost use Rattle.der_core.specs.Writer.{Writes};
ghost use Rattle.std.specs.Ordering.{nat_cmp};
ghost use Rattle.der_base.proofs.DelimitedLemmas.{lengths_delimited};

pub mod indefinite;
pub mod turns;

use crate::decode::Decode;
use crate::encode::Encode;
use crate::identifier::Identifier;
use crate::length::indefinite::scan_uncounted;
use crate::ord::DerOrd;
use crate::reader::{Lends, Reader, ReaderExt};
use crate::writer::Writer;
use der_base::{Error, ErrorKind, Length};
use std::alloc::Global;
use std::cmp::Ordering;

// the length octet of the indefinite form
pub(crate) const INDEFINITE: u8 = 0x80;

/// Decodes a length (X.690 8.1.3, 10.1). Does the same as [`Length::decode`], but takes no
/// allocator, because decoding a length allocates nothing.
///
/// # Errors
///
/// `Failed`, `Overflow`, `Incomplete`, `IndefiniteLength`, `TagUnknown`, `TagNumberInvalid`,
/// `Length`, `NestingDepth` and `Overlength`, as by [`Length::decode`].
#[inline(always)]
pub fn decode_length<R: Reader>(reader: &mut R) -> Result<Length, Error>
    ensures { Decodes LengthNext (LengthFault BodyFault Overlength) R.reliable
        (R.state reader.old) result (R.state reader.new) }
{
    decode_length_after(reader, None)
}

// Decodes a length. If it follows an identifier, then the error for a length that is not encoded as
// required has the tag of that identifier.
#[inline(always)]
pub(crate) fn decode_length_after<R: Reader>(
    reader: &mut R,
    identifier: Option<Identifier>,
) -> Result<Length, Error>
    ensures { Decodes LengthNext
        (LengthFault BodyFault (wrong_length_kind (tag_if_known identifier)))
        R.reliable (R.state reader.old) result (R.state reader.new) }
{
    let first = reader.read_byte()?;
    if first < INDEFINITE {
        return Ok(Length::new(first as u32));
    }
    if first == INDEFINITE {
        return decode_indefinite_form(reader);
    }
    let number = decode_long_length(reader, first, identifier)?;
    Ok(Length::new(number))
}

// The length after octet `0x80`: under the Basic Encoding Rules it counts the octets of the body
// that follows, which is not consumed (X.690 8.1.3.6).
#[inline(always)]
fn decode_indefinite_form<R: Reader>(reader: &mut R) -> Result<Length, Error>
    ensures same { Same (R.state reader.old) (R.state reader.new) }
    ensures ok { IfOk result (λ l. IsIndefiniteForm l (R.state reader.old) (R.state reader.new)) }
    ensures exact { R.reliable ≡ true
        → IfErr result (λ e. RefusesIndefinite (R.state reader.old) e (R.state reader.new)) }
{
    if reader.encoding_rules().is_der() {
        return Err(reader.error(ErrorKind::IndefiniteLength));
    }
    match scan_uncounted(reader) {
        // the flag is set here, so that its value is known statically on every path
        Ok(length) => Ok(Length::new_indefinite(u32::from(length))),
        Err(error) => Err(error),
    }
}

// The rest of a length after a first octet of `0x81` or more: the announced number of base-256
// digits, which has to be the fewest possible.
#[inline(always)]
pub(crate) fn decode_long_length<R: Reader>(
    reader: &mut R,
    first: u8,
    identifier: Option<Identifier>,
) -> Result<u32, Error>
    requires { 128 < first }
    ensures same { Same (R.state reader.old) (R.state reader.new) }
    ensures ok { IfOk result (λ n. DefiniteAfter first n (R.state reader.old)
        (R.state reader.new)) }
    ensures exact { R.reliable ≡ true
        → IfErr result
        (λ e. RefusesLongLength (wrong_length_kind (tag_if_known identifier)) first
        (R.state reader.old) e (R.state reader.new)) }
{
    if first > 0x84 {
        return Err(reader.error(wrong_length(identifier)));
    }
    let count = first - INDEFINITE;
    let mut number = 0u32;
    for i in 0..count {
        let octet = reader.read_byte()?;
        number = number * 256 + octet as u32;
    }
    if number < least_of(count) {
        return Err(reader.error(wrong_length(identifier)));
    }
    Ok(number)
}

// The error kind for a length that is not encoded as required.
#[cold]
fn wrong_length(identifier: Option<Identifier>) -> ErrorKind
    ensures { result ≡ wrong_length_kind (tag_if_known identifier) }
{
    match identifier {
        Some(identifier) => identifier.refused_tag().length_error(),
        None => ErrorKind::Overlength,
    }
}

// The least length that requires this many octets after the first.
fn least_of(count: u8) -> u32
    requires { (1 ≤ count) × (count ≤ 4) }
    ensures { result ≡ max 128 (256 ^ (count - 1)) }
{
    match count {
        1 => 0x80,
        2 => 0x100,
        3 => 0x1_0000,
        _ => 0x100_0000,
    }
}

impl<R: Lends> Decode<R> for Length {
    type Error = Error;

    ghost is_next = { LengthNext };

    ghost decode_levels = { grammar_levels };

    ghost allocates = { false };

    ghost decode_answers = { Decodes LengthNext (LengthFault BodyFault Overlength) true };

    /// Decodes a length (X.690 8.1.3, 10.1). Under the Basic Encoding Rules octet `0x80` is an
    /// indefinite length. The result is then the number of octets of the body that follows,
    /// including its end-of-contents octets; the reader stays after octet `0x80` (X.690 8.1.3.6).
    ///
    /// # Errors
    ///
    /// After all but `Failed`, `Overflow` and the errors of the scan for the end of an indefinite
    /// length, the reader is at the error's position and failed.
    ///
    /// - `Failed` at the reader's position, if the reader had already failed; the reader is
    ///   unchanged.
    /// - `Overflow` without a position, if an octet is missing at position 4294967295; the reader
    ///   is there and has not failed.
    /// - `Incomplete` at the end, if an octet is missing at any other position.
    /// - `IndefiniteLength` at the position after the first octet, if this octet is `0x80` and the
    ///   reader uses the Distinguished Encoding Rules.
    /// - `TagUnknown`, `TagNumberInvalid`, `Length`, `NestingDepth` and the other errors of the
    ///   scan that follows octet `0x80`, as by [`decode_indefinite_length`], under the Basic
    ///   Encoding Rules; the reader is after octet `0x80` and has not failed.
    /// - `Overlength` in two cases: at the position after the length octets, if fewer length octets
    ///   would suffice; and at the position after the first length octet, if this octet announces
    ///   more than four others.
    #[inline(always)]
    fn decode(_alloc: Global, reader: &mut R) -> Result<Length, Error>
    where
        R: Reader,
        ensures { Decodes LengthNext (LengthFault BodyFault Overlength) R.reliable
            (R.state reader.old) result (R.state reader.new) }
    {
        decode_length(reader)
    }
}

/// Writes the length in the definite form, in the fewest octets (X.690 8.1.3, 10.1). A length below
/// 128 is written as one octet. For a greater length, the first octet is 128 plus the number of
/// base-256 digits of the length; one further write appends all these digits. Whether the length
/// was read in the indefinite form is ignored.
///
/// # Errors
///
/// [`Encode::encoded_len`] never fails. [`Encode::encode`] returns the writer's errors, as by
/// [`Writer::write`]; the octets that it wrote before the error remain.
impl Encode for Length {
    ghost encoding = { λ l. length_octets (number l) };

    ghost encodable = { λ _. Unit {0} };

    ghost size = { λ l. Ok (definite_length (length (length_octets (number l)))) };

    ghost encode_answers = { λ l s r t. Writes (length_outcome (number l) s) r t };

    fn encoded_len(&self) -> Result<Length, Error> {
        Ok(Length::new(self.octet_count()))
    }

    #[inline(always)]
    fn encode<W: Writer>(&self, writer: &mut W) -> Result<(), Error> {
        let number = u32::from(*self);
        let digits = self.octet_count() - 1;
        if digits == 0 {
            return writer.write_byte(number as u8);
        }
        writer.write_byte(0x80 + digits as u8)?;
        writer.write(&number.to_be_bytes()[4 - digits as usize..])
    }
}

/// Compares two lengths as numbers. The encodings of the lengths (X.690 8.1.3), compared octet by
/// octet, have the same order. Whether a length was read in the indefinite form is ignored. Never
/// fails.
impl DerOrd for Length {
    ghost order = { λ l k. Ok (nat_cmp (number l) (number k)) };

    ghost octets = { λ l. length_octets (number l) };

    ghost by_octets = { λ _ _. Unit {0} };

    ghost has_header = { λ _. Unit {0} };

    ghost delimits = { Unit {0} };

    ghost delimited = { λ _. lengths_delimited };

    #[inline(always)]
    #[tactic(auto, using(der_base::proofs::OrderLemmas::length_order))]
    fn der_cmp(&self, other: &Self) -> Result<Ordering, Error> {
        Ok(u32::from(*self).cmp(&u32::from(*other)))
    }
}
