//! Indefinite lengths (X.690 8.1.3.6).
ghost use Rattle.std.specs.Prelude.{◌≡◌, ◌≢◌, ◌≤◌, true, IfOk, IfErr};
ghost use Rattle.der_base.specs.declared.encoding_rules.EncodingRules.TheVariants.{Ber};
ghost use Rattle.der_base.specs.declared.error.ErrorKind.TheVariants.{Length as IncorrectLength};
ghost use Rattle.der_core.specs.AfterFirstOctet.{DefiniteAfter, RefusesLongLength};
ghost use Rattle.der_core.specs.Identifier.{tag_of};
ghost use Rattle.der_core.specs.ReaderState.{rest_of, Same};
ghost use Rattle.der_core.specs.Scan.{Scans, ScansNext, IsTurned};
ghost use Rattle.der_core.specs.Turn.{PartRead, RefusesPart};

mod walk;

use crate::identifier::{Identifier, decode_number_after, has_constructed_bit};
use crate::length::indefinite::walk::Walk;
use crate::length::turns::Turns;
use crate::length::{INDEFINITE, decode_long_length};
use crate::reader::value::read_zero_octet;
use crate::reader::{Octets, Reader, ReaderExt};
use der_base::{Error, ErrorKind, Length};
use std::marker::Brand;
use std::sync::ledger::{Blank, Ledger};

// the greatest number of bodies that may be open at a time, nested in each other
const MAX_LEVEL: u8 = 64;

// The next part of a body.
enum Part {
    // the end-of-contents octets
    Ends,
    // an item with a definite length
    Passes,
    // an identifier and octet `0x80`
    Opens,
}

/// Scans the body that follows an indefinite length: the contents and the end-of-contents octets
/// that close them (X.690 8.1.3.6). Returns the number of octets of the body. Definite-length
/// contents are skipped unread; every other octet is read once. `turns` counts each identifier and
/// each end-of-contents (two zero octets) that is read; it exists only for proofs.
///
/// The caller must ensure that the reader uses the Basic Encoding Rules.
///
/// # Errors
///
/// After all but `Failed` and `Overflow`, the reader is at the error's position and failed.
///
/// - `Failed` at the reader's position, if the reader had already failed; the reader is unchanged.
/// - `Overflow` without a position, in place of each `Incomplete` below whose `expected_len` would
///   exceed 4294967295; the reader is at the position of the read that fails, and has not failed.
/// - `Incomplete` at the reader's end, if the octets end before an identifier, after the first
///   octet of an end-of-contents, inside an identifier, or before the end of a length.
/// - `IndefiniteLength` in two cases: at the position after a nonzero octet that follows a zero
///   octet, if the zero octet is where an identifier may begin; and at the position after a length
///   octet `0x80`, if the identifier before it is primitive.
/// - `TagUnknown` and `TagNumberInvalid` for an identifier, as by [`Tag::decode`](crate::Decode).
/// - `NestingDepth` at the position after a length octet `0x80`, if this octet would open a 65th
///   body inside the 64 bodies that are open. The body that the call scans is the first of them.
/// - `Length`, which holds the tag, in two cases: at the position after the length octets, if fewer
///   length octets would suffice; and at the position after the first length octet, if this octet
///   announces more than four others.
/// - `Incomplete` for contents that are truncated, as by [`Reader::drain`].
pub fn decode_indefinite_length<R: Reader, L: Ledger>(
    reader: &mut R,
    turns: &mut Turns<L>,
) -> Result<Length, Error>
    requires ber { (R.state reader.old).rules ≡ Ber }
    ensures scans { Scans R.reliable (R.state reader.old) result (R.state reader.new) }
    ensures turned { IsTurned (rest_of (R.state reader.old)) result turns.old turns.new }
{
    let start = reader.position();
    let mut level = 1;
    'turns: loop {
        turns.tick();
        let part = next_part(reader, level)?;
        match part {
            Part::Ends => {
                level -= 1;
                if level == 0 {
                    let count = reader.position().saturating_sub(start);
                    return Ok(Length::new_indefinite(u32::from(count)));
                }
            }
            Part::Passes => {}
            Part::Opens => level += 1,
        }
    }
}

// Reads the next part of a body, with `level` bodies open.
fn next_part<R: Reader>(reader: &mut R, level: u8) -> Result<Part, Error>
    requires ber { (R.state reader.old).rules ≡ Ber }
    requires levels { (1 ≤ level) × (level ≤ 64) }
    ensures same { Same (R.state reader.old) (R.state reader.new) }
    ensures ok { IfOk result (λ part. PartRead level part (R.state reader.old)
        (R.state reader.new)) }
    ensures exact { R.reliable ≡ true
        → IfErr result (λ e. RefusesPart level (R.state reader.old) e (R.state reader.new)) }
{
    let first = reader.read_byte()?;
    if first == 0 {
        read_zero_octet(reader)?;
        return Ok(Part::Ends);
    }
    let number = decode_number_after(reader, first)?;
    let octet = reader.read_byte()?;
    if octet == INDEFINITE {
        if !has_constructed_bit(first) {
            return Err(reader.error(ErrorKind::IndefiniteLength));
        }
        if level == MAX_LEVEL {
            return Err(reader.error(ErrorKind::NestingDepth));
        }
        return Ok(Part::Opens);
    }
    let count = decode_definite(reader, octet, Identifier { first, number })?;
    reader.drain(Length::new(count))?;
    Ok(Part::Passes)
}

// A definite length after its first octet, and after this identifier.
fn decode_definite<R: Reader>(
    reader: &mut R,
    first: u8,
    identifier: Identifier,
) -> Result<u32, Error>
    requires { first ≢ 128 }
    ensures same { Same (R.state reader.old) (R.state reader.new) }
    ensures ok { IfOk result (λ n. DefiniteAfter first n (R.state reader.old)
        (R.state reader.new)) }
    ensures exact { R.reliable ≡ true
        → IfErr result
        (λ e. RefusesLongLength (IncorrectLength (tag_of identifier)) first
        (R.state reader.old) e (R.state reader.new)) }
{
    if first < INDEFINITE {
        return Ok(first as u32);
    }
    decode_long_length(reader, first, Some(identifier))
}

// Scans the next body of a reader, which does not move: by an index if the reader returns slices,
// otherwise by a fork.
#[inline(always)]
pub(crate) fn scan_next_body<R: Reader, L: Ledger>(
    reader: &R,
    turns: &mut Turns<L>,
) -> Result<Length, Error>
    requires ber { (R.state reader.now).rules ≡ Ber }
    ensures scans { ScansNext R.reliable (R.state reader.now) result }
    ensures turned { IsTurned (rest_of (R.state reader.now)) result turns.old turns.new }
{
    match reader.remaining() {
        Ok(borrowed) => Walk::scan(borrowed.as_slice(), reader.position(), turns),
        Err(_) => scan_fork(reader.fork(), turns),
    }
}

// Scans the next body of a fork, octet by octet. Takes the fork by value, since a reader whose
// address is passed to a call is not kept in registers.
#[cold]
fn scan_fork<R: Reader, L: Ledger>(fork: R, turns: &mut Turns<L>) -> Result<Length, Error>
    requires ber { (R.state fork).rules ≡ Ber }
    ensures scans { ScansNext R.reliable (R.state fork) result }
    ensures turned { IsTurned (rest_of (R.state fork)) result turns.old turns.new }
{
    let mut fork = fork;
    decode_indefinite_length(&mut fork, turns)
}

// Scans the next body of a reader, which does not move, without counting turns for a caller.
#[inline(always)]
pub(crate) fn scan_uncounted<R: Reader>(reader: &R) -> Result<Length, Error>
    requires ber { (R.state reader.now).rules ≡ Ber }
    ensures { ScansNext R.reliable (R.state reader.now) result }
{
    scan_counted::<R, Brand>(reader, Blank::new(1))
}

#[inline(always)]
fn scan_counted<R: Reader, L: Ledger>(reader: &R, blank: Blank) -> Result<Length, Error>
    requires ber { (R.state reader.now).rules ≡ Ber }
    requires name { blank.name ≡ L.name }
    requires parts { blank.parts ≡ L.parts }
    requires whole { blank.parts ≡ 1 }
    ensures { ScansNext R.reliable (R.state reader.now) result }
{
    let mut turns = Turns::<L>::new(blank);
    scan_next_body(reader, &mut turns)
}
