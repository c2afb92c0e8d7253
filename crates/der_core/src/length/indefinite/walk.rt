//! Finds where a body with an indefinite length ends (X.690 8.1.3.6). This code scans a slice by an
//! index; it serves the readers that return slices of their input.
ghost use Rattle.std.specs.Prelude.{◌≡◌, ◌≢◌, ◌+◌, ◌^◌, ◌<◌, ◌≤◌, true, [], ◌∷◌, length, Err, IfOk, IfErr, OnOk};

use crate::identifier::{Identifier, has_constructed_bit, is_ber_identifier, unknown};
use crate::length::indefinite::{MAX_LEVEL, Part};
use crate::length::turns::Turns;
use crate::length::{INDEFINITE, least_of};
use crate::reader::position::missing_octets;
use crate::reader::slice::STEP;
use der_base::{Error, ErrorKind, Length};
use std::sync::ledger::Ledger;

// Octets that begin at position `start`, of which `index` are consumed.
#[derive(Drop)]
pub(super) struct Walk<'a> {
    octets: &'a [u8],
    start: usize,
    index: usize,
    ghost within: { index ≤ length octets.now },
    ghost addressable: { start + length octets.now < 2 ^ 32 },
}

impl<'a> Walk<'a> {
    ghost use Rattle.der_base.specs.Error.{error_at, end_refusal, missing_refusal};
    ghost use Rattle.der_base.specs.Length.{definite_length, digits, number};
    ghost use Rattle.der_base.specs.Tag.{continuation_octets, is_constructed};
    ghost use Rattle.der_base.specs.declared.error.ErrorKind.TheVariants.{Length as IncorrectLength};
    ghost use Rattle.der_core.specs.AfterFirstOctet.{DefiniteAfter, IdentifierAfter, IsErrorOf, RefusesIdentifier, RefusesLongLength, RefusesNumber};
    ghost use Rattle.der_core.specs.Identifier.{identifier_tag, tag_of};
    ghost use Rattle.der_core.specs.Outcome.{Gives};
    ghost use Rattle.der_core.specs.Reader.{drain_outcome};
    ghost use Rattle.der_core.specs.ReaderState.{rest_of, reader_position, Reads};
    ghost use Rattle.der_core.specs.Scan.{ScansNext, IsTurned};
    ghost use Rattle.der_core.specs.Turn.{PartRead, RefusesPart};
    ghost use Rattle.der_core.specs.Walk.{walked_state, walk_state};

    // Scans the body at the start of the octets, whose first octet is at position `start`.
    pub(super) fn scan<L: Ledger>(
        octets: &'a [u8],
        start: Length,
        turns: &mut Turns<L>,
    ) -> Result<Length, Error>
        requires { number start + length octets.now < 2 ^ 32 }
        ensures scans { ScansNext true (walked_state octets.now (number start) 0) result }
        ensures turned { IsTurned octets.now result turns.old turns.new }
    {
        let start = u32::from(start) as usize;
        let mut walk = Walk::new(octets, start);
        let mut level = 1;
        'turns: loop {
            turns.tick();
            let part = walk.next_part(level)?;
            match part {
                Part::Ends => {
                    level -= 1;
                    if level == 0 {
                        let count = walk.position() - start;
                        return Ok(Length::new_indefinite(count as u32));
                    }
                }
                Part::Passes => {}
                Part::Opens => level += 1,
            }
        }
    }

    // A walk at the first of the octets, which is at position `start`.
    #[inline(always)]
    fn new(octets: &'a [u8], start: usize) -> Self
        requires { start + length octets.now < 2 ^ 32 }
        ensures { walk_state result ≡ walked_state octets.now start 0 }
    {
        Walk {
            octets,
            start,
            index: 0,
        }
    }

    // The position, in octets from the start of the input.
    #[inline(always)]
    fn position(&self) -> usize
        ensures { result ≡ (walk_state self.now).position }
    {
        self.start + self.index
    }

    // The error of this kind at the position.
    #[inline(always)]
    fn error(&self, kind: ErrorKind) -> Error
        ensures { result ≡ error_at kind (reader_position (walk_state self.now)) }
    {
        kind.at(Length::new(self.position() as u32))
    }

    // The next octet.
    #[inline(always)]
    fn read_byte(&mut self) -> Result<u8, Error>
        ensures ok { IfOk result (λ o. Reads (walk_state self.old) (walk_state self.new)
            (o ∷ [])) }
        ensures none { IfErr result (λ _. rest_of (walk_state self.old) ≡ []) }
        ensures exact { IfErr result
            (λ e. e ≡ (end_refusal (walk_state self.old).position).error) }
    {
        if self.index >= self.octets.len() {
            let position = self.position();
            return Err(missing_octets(position, 1, position as u32));
        }
        let octet = self.octets[self.index];
        self.index += 1;
        Ok(octet)
    }

    // Reads the next part of a body, with `level` bodies open.
    #[inline(always)]
    fn next_part(&mut self, level: u8) -> Result<Part, Error>
        requires levels { (1 ≤ level) × (level ≤ 64) }
        ensures ok { IfOk result (λ part. PartRead level part (walk_state self.old)
            (walk_state self.new)) }
        ensures exact { IfErr result
            (λ e. IsErrorOf (RefusesPart level) (walk_state self.old) e) }
    {
        let first = self.read_byte()?;
        if first == 0 {
            let second = self.read_byte()?;
            if second != 0 {
                return Err(self.error(ErrorKind::IndefiniteLength));
            }
            return Ok(Part::Ends);
        }
        let number = self.read_identifier(first)?;
        let octet = self.read_byte()?;
        if octet == INDEFINITE {
            if !has_constructed_bit(first) {
                return Err(self.error(ErrorKind::IndefiniteLength));
            }
            if level == MAX_LEVEL {
                return Err(self.error(ErrorKind::NestingDepth));
            }
            return Ok(Part::Opens);
        }
        let count = self.read_definite(octet, Identifier { first, number })?;
        self.pass(count)?;
        Ok(Part::Passes)
    }

    // The rest of an identifier after its first octet; returns the number if that octet is `0x40`
    // or more.
    #[inline(always)]
    fn read_identifier(&mut self, first: u8) -> Result<u32, Error>
        ensures ok { IfOk result (λ n. IdentifierAfter first (identifier_tag first n)
            (is_constructed first) (walk_state self.old) (walk_state self.new)) }
        ensures exact { IfErr result
            (λ e. IsErrorOf (RefusesIdentifier first) (walk_state self.old) e) }
    {
        if first < 0x40 {
            if !is_ber_identifier(first) {
                return Err(self.error(unknown(first)));
            }
            return Ok(0);
        }
        let low = first % 32;
        if low < 31 {
            return Ok(low as u32);
        }
        self.read_long_number()
    }

    // The tag number after a first octet whose five number bits are set (X.690 8.1.2.4).
    #[inline(always)]
    fn read_long_number(&mut self) -> Result<u32, Error>
        ensures ok { IfOk result (λ n. Reads (walk_state self.old) (walk_state self.new)
            (continuation_octets (digits 128 n)) × (31 ≤ n) × (n < 2 ^ 32)) }
        ensures exact { IfErr result
            (λ e. IsErrorOf RefusesNumber (walk_state self.old) e) }
    {
        let mut number = 0u32;
        'octets: loop {
            let octet = self.read_byte()?;
            let digit = octet % 128;
            if number == 0 && digit == 0 {
                return Err(self.error(ErrorKind::TagNumberInvalid));
            }
            let next = number * 128 + digit as u32;
            if octet < 128 {
                if next < 31 {
                    return Err(self.error(ErrorKind::TagNumberInvalid));
                }
                return Ok(next);
            }
            if next >= 1 << 25 {
                return Err(self.error(ErrorKind::TagNumberInvalid));
            }
            number = next;
        }
    }

    // A definite length after its first octet, and after this identifier.
    #[inline(always)]
    fn read_definite(&mut self, first: u8, identifier: Identifier) -> Result<u32, Error>
        requires { first ≢ 128 }
        ensures ok { IfOk result (λ n. DefiniteAfter first n (walk_state self.old)
            (walk_state self.new)) }
        ensures exact { IfErr result
            (λ e. IsErrorOf
            (RefusesLongLength (IncorrectLength (tag_of identifier)) first)
            (walk_state self.old) e) }
    {
        if first < INDEFINITE {
            return Ok(first as u32);
        }
        if first > 0x84 {
            return Err(self.error(identifier.refused_tag().length_error()));
        }
        let count = first - INDEFINITE;
        let mut value = 0u32;
        for i in 0..count {
            let octet = self.read_byte()?;
            value = value * 256 + octet as u32;
        }
        if value < least_of(count) {
            return Err(self.error(identifier.refused_tag().length_error()));
        }
        Ok(value)
    }

    // Skips this many octets, unread.
    #[inline(always)]
    fn pass(&mut self, count: u32) -> Result<(), Error>
        ensures ok { OnOk result (Gives (drain_outcome (definite_length count))
            (walk_state self.old) result (walk_state self.new)) }
        ensures exact { IfErr result (λ e. Err e
            ≡ (drain_outcome (definite_length count) (walk_state self.old)).answer) }
    {
        let left = self.octets.len() - self.index;
        if count as usize > left {
            let whole = left - left % STEP as usize;
            let end = (self.start + self.octets.len()) as u32;
            let step = (count - whole as u32).min(STEP);
            return Err(missing_octets(self.position() + whole, step, end));
        }
        self.index += count as usize;
        Ok(())
    }
}
