//! Identifiers (X.690 8.1.2).
ghost use Rattle.std.specs.Prelude.{◌≡◌, ◌≢◌, ◌^◌, ◌<◌, ◌≤◌, ◌⊎◌, ◌↔◌, true, IsTrue, None, [], IfOk, IfErr};
ghost use Rattle.der_base.specs.Length.{digits};
ghost use Rattle.der_base.specs.Tag.{continuation_octets, universal_tag, other_tag, is_constructed, IdentifierFault, identifier_kind};
ghost use Rattle.der_base.specs.HeaderGrammar.{IdentifierNext};
ghost use Rattle.der_core.specs.AfterFirstOctet.{IdentifierAfter, IsAlone, IsGuess, RefusesIdentifier, RefusesNumber};
ghost use Rattle.der_core.specs.Decode.{Decodes};
ghost use Rattle.der_core.specs.Identifier.{identifier_tag, tag_of, is_constructed_identifier};
ghost use Rattle.der_core.specs.ReaderState.{Same, Reads};

use crate::reader::{Reader, ReaderExt};
use crate::tag::first_octet_of;
use der_base::{Error, ErrorKind, Tag, TagNumber};

/// The identifier of an element as it was read: its first octet and its tag number. It is converted
/// to a [`Tag`] only where the tag is needed. If each read converted it, the compiled code would
/// have one jump for each tag, where a table is faster.
#[derive(Clone, Copy)]
pub(crate) struct Identifier {
    /// The first identifier octet. It alone determines a universal tag.
    pub first: u8,
    /// The tag number, if the first octet is `0x40` or more: if the class is not UNIVERSAL.
    pub number: u32,
}

impl Identifier {
    // Decodes an identifier.
    #[inline(always)]
    pub(crate) fn decode<R: Reader>(reader: &mut R) -> Result<Identifier, Error>
        ensures { Decodes (λ i. IdentifierNext (tag_of i, is_constructed_identifier i))
            IdentifierFault R.reliable (R.state reader.old) result (R.state reader.new) }
    {
        let first = reader.read_byte()?;
        let number = decode_number_after(reader, first)?;
        Ok(Identifier { first, number })
    }

    // The tag under the Basic Encoding Rules.
    #[inline(always)]
    pub(crate) fn tag(self) -> Tag
        ensures { result ≡ tag_of self }
    {
        if self.first >= 0x40 {
            return other(self.first, self.number);
        }
        match universal_tag(self.first) {
            Some(tag) => tag,
            None => Tag::OctetString,
        }
    }

    // The tag for an error, computed by a call.
    #[cold]
    #[inline(never)]
    pub(crate) fn refused_tag(self) -> Tag
        ensures { result ≡ tag_of self }
    {
        self.tag()
    }

    // The tag, with a guess at it: if the guess is right, the tag is not computed.
    #[inline(always)]
    pub(crate) fn guessed_tag(self, guess: Option<(u8, Tag)>) -> Tag
        requires { IsGuess guess }
        ensures { result ≡ tag_of self }
    {
        match guess {
            Some((octet, tag)) if octet == self.first => tag,
            _ => self.tag(),
        }
    }

    // Bit 6 of the first octet (X.690 8.1.2.3).
    #[inline(always)]
    pub(crate) fn is_constructed(self) -> bool
        ensures { result ≡ is_constructed_identifier self }
    {
        has_constructed_bit(self.first)
    }
}

// the identifier octet of an OCTET STRING that is constructed from segments (X.690 8.7.1)
const SEGMENTS: u8 = 0x24;

/// The universal tag whose identifier consists of `octet` alone (X.680 8.6); `None` if there is no
/// such tag.
#[inline(always)]
pub fn universal_tag(octet: u8) -> Option<Tag>
    ensures { result ≡ universal_tag octet }
{
    match octet {
        0x01 => Some(Tag::Boolean),
        0x02 => Some(Tag::Integer),
        0x03 => Some(Tag::BitString),
        0x04 => Some(Tag::OctetString),
        0x05 => Some(Tag::Null),
        0x06 => Some(Tag::ObjectIdentifier),
        0x09 => Some(Tag::Real),
        0x0A => Some(Tag::Enumerated),
        0x0C => Some(Tag::Utf8String),
        0x0D => Some(Tag::RelativeOid),
        0x12 => Some(Tag::NumericString),
        0x13 => Some(Tag::PrintableString),
        0x14 => Some(Tag::TeletexString),
        0x15 => Some(Tag::VideotexString),
        0x16 => Some(Tag::Ia5String),
        0x17 => Some(Tag::UtcTime),
        0x18 => Some(Tag::GeneralizedTime),
        0x1A => Some(Tag::VisibleString),
        0x1B => Some(Tag::GeneralString),
        0x1E => Some(Tag::BmpString),
        0x30 => Some(Tag::Sequence),
        0x31 => Some(Tag::Set),
        _ => None,
    }
}

// Whether this octet is the identifier of a universal tag: compiles to a bit test that does not
// compute the tag.
#[inline(always)]
fn is_universal(octet: u8) -> bool
    ensures { IsTrue result ↔ (universal_tag octet ≢ None) }
{
    universal_tag(octet).is_some()
}

// Whether this octet is a complete identifier, under any rules.
#[inline(always)]
pub(crate) fn is_identifier(octet: u8) -> bool
    ensures { result ≡ true → IsAlone octet }
{
    is_universal(octet) || octet >= 0x40 && octet % 32 < 31
}

// Whether this octet below `0x40` is an identifier under the Basic Encoding Rules.
#[inline(always)]
pub(crate) fn is_ber_identifier(octet: u8) -> bool
    ensures { IsTrue result ↔ ((octet ≡ 36) ⊎ (universal_tag octet ≢ None)) }
{
    octet == SEGMENTS || is_universal(octet)
}

// Bit 6 of an identifier's first octet (X.690 8.1.2.3).
#[inline(always)]
#[tactic(auto, using(crate::proofs::TagReadLemmas::bit_six))]
pub(crate) fn has_constructed_bit(first: u8) -> bool
    ensures { result ≡ is_constructed first }
{
    first & 0x20 != 0
}

// The tag of another class with this first octet and number.
#[inline(always)]
fn other(first: u8, number: u32) -> Tag
    requires { 64 ≤ first }
    ensures { result ≡ other_tag first number }
{
    let constructed = has_constructed_bit(first);
    let number = TagNumber(number);
    if first < 0x80 {
        Tag::Application {
            constructed,
            number,
        }
    } else if first < 0xC0 {
        Tag::ContextSpecific {
            constructed,
            number,
        }
    } else {
        Tag::Private {
            constructed,
            number,
        }
    }
}

// A guess at a universal tag: its identifier octet and the tag itself; `None` for any other tag.
#[inline(always)]
pub(crate) fn guess(tag: Tag) -> Option<(u8, Tag)>
    ensures { IsGuess result }
{
    let octet = first_octet_of(tag, (tag.number().0 % 32) as u8);
    match universal_tag(octet) {
        Some(tag) => Some((octet, tag)),
        None => None,
    }
}

// The rest of an identifier after its first octet; returns the number if that octet is `0x40` or
// more.
#[inline(always)]
pub(crate) fn decode_number_after<R: Reader>(reader: &mut R, first: u8) -> Result<u32, Error>
    ensures same { Same (R.state reader.old) (R.state reader.new) }
    ensures ok { IfOk result (λ n. IdentifierAfter first (identifier_tag first n)
        (is_constructed first) (R.state reader.old) (R.state reader.new)) }
    ensures exact { R.reliable ≡ true → IfErr result
        (λ e. RefusesIdentifier first (R.state reader.old) e (R.state reader.new)) }
{
    if is_universal(first) {
        return Ok(0);
    }
    if first < 0x40 {
        if first == SEGMENTS && reader.encoding_rules().is_ber() {
            return Ok(0);
        }
        return Err(reader.error(unknown(first)));
    }
    let low = first % 32;
    if low < 31 {
        return Ok(low as u32);
    }
    decode_long_number(reader)
}

// The error kind for a first octet below `0x40` that no universal tag has.
#[cold]
pub(crate) fn unknown(first: u8) -> ErrorKind
    ensures { result ≡ identifier_kind [] first }
{
    if first == 0x1F {
        ErrorKind::TagNumberInvalid
    } else {
        ErrorKind::TagUnknown { byte: first }
    }
}

// The tag number after a first octet whose five number bits are set (X.690 8.1.2.4).
#[inline(always)]
fn decode_long_number<R: Reader>(reader: &mut R) -> Result<u32, Error>
    ensures same { Same (R.state reader.old) (R.state reader.new) }
    ensures ok { IfOk result (λ n. Reads (R.state reader.old) (R.state reader.new)
        (continuation_octets (digits 128 n)) × (31 ≤ n) × (n < 2 ^ 32)) }
    ensures exact { R.reliable ≡ true
        → IfErr result (λ e. RefusesNumber (R.state reader.old) e (R.state reader.new)) }
{
    let mut number = 0u32;
    'octets: loop {
        let octet = reader.read_byte()?;
        let digit = octet % 128;
        if number == 0 && digit == 0 {
            return Err(reader.error(ErrorKind::TagNumberInvalid));
        }
        let next = number * 128 + digit as u32;
        if octet < 128 {
            if next < 31 {
                return Err(reader.error(ErrorKind::TagNumberInvalid));
            }
            return Ok(next);
        }
        if next >= 1 << 25 {
            return Err(reader.error(ErrorKind::TagNumberInvalid));
        }
        number = next;
    }
}
