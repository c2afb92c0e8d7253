//! Positions in an input. A nested part is a range of octets to which reading is limited for a
//! time, such as the contents of an element.
ghost use Rattle.std.specs.Prelude.{◌≡◌, ◌+◌, ◌^◌, ◌<◌};
ghost use Rattle.der_base.specs.Error.{missing_refusal};

use der_base::{Error, ErrorKind, Length};
use std::alloc::AllocError;

// the greatest depth of nested parts
pub(super) const MAX_DEPTH: u8 = 64;

/// A position in an input, the end up to which the input may be read, and a depth. The depth is the
/// number of nested parts, such as contents of elements, that enclose the position.
#[derive(Debug, Drop)]
pub struct Position {
    pub(super) end: u32,
    // a `usize`, since slices are indexed by it, so that no read has to widen it
    pub(super) position: usize,
    pub(super) depth: u8,
    ghost counted: { position < 2 ^ 32 },
}

/// A clone has the same position, end and depth. Cloning never fails and allocates nothing.
impl Clone for Position {
    ghost use Rattle.std.specs.Prelude.{⊤};

    ghost is_clone = { λ p q. q ≡ p };

    ghost is_infallible = { λ _. ⊤ };

    fn clone(&self) -> Result<Position, AllocError> {
        Ok(Position {
            end: self.end,
            position: self.position,
            depth: self.depth,
        })
    }
}

impl Position {
    ghost use Rattle.std.specs.Prelude.{◌-◌};
    ghost use Rattle.der_base.specs.Error.{error_at};
    ghost use Rattle.der_base.specs.Length.{number, definite_length};
    ghost use Rattle.der_core.specs.Outcome.{map_ok};
    ghost use Rattle.der_core.specs.Position.{position_place, place_at, Moves, advance_outcome, part_end, part_error, nested_place, split_nested_outcome};
    ghost use Rattle.der_core.specs.Resumption.{outer_place, outer_end, outer_depth};

    /// A position at the start of an input of `input_len` octets, outside all nested parts.
    pub fn new(input_len: Length) -> Self
        ensures { position_place result ≡ place_at (number input_len) 0 0 }
    {
        Position {
            end: u32::from(input_len),
            position: 0,
            depth: 0,
        }
    }

    /// The position: the number of octets from the start of the input.
    pub fn current(&self) -> Length
        ensures { result ≡ definite_length (position_place self.now).position }
    {
        Length::new(self.position as u32)
    }

    /// The end up to which the input may be read, in octets from the start of the input. Inside a
    /// nested part this is the end of that part. Outside all nested parts it is the length of the
    /// input.
    pub fn input_len(&self) -> Length
        ensures { result ≡ definite_length (position_place self.now).end }
    {
        Length::new(self.end)
    }

    /// The number of octets left, up to the end.
    pub fn remaining_len(&self) -> Length
        ensures { result ≡ definite_length
            ((position_place self.now).end - (position_place self.now).position) }
    {
        self.input_len().saturating_sub(self.current())
    }

    /// The number of nested parts (see [`Position::split_nested`]) that enclose the position.
    pub fn depth(&self) -> u8
        ensures { result ≡ (position_place self.now).depth }
    {
        self.depth
    }

    /// An error of the kind `kind` at this position.
    pub fn error(&self, kind: ErrorKind) -> Error
        ensures { result ≡ error_at kind (definite_length (position_place self.now).position) }
    {
        kind.at(self.current())
    }

    /// Advances by `amount` octets and returns the new position.
    ///
    /// # Errors
    ///
    /// After each of these errors the position is unchanged. If several apply, the first in this
    /// list is returned.
    ///
    /// - `Overflow` without a position, if the new position would exceed 4294967295.
    /// - `Incomplete` at the old position, if the new position would be after the end, but not
    ///   after 4294967295.
    pub fn advance(&mut self, amount: Length) -> Result<Length, Error>
        ensures { Moves (advance_outcome (number amount)) (position_place self.old) result
            (position_place self.new) }
    {
        let count = u32::from(amount);
        let following = self.position + count as usize;
        if following > self.end as usize {
            return Err(self.missing(count));
        }
        self.position = following;
        Ok(self.current())
    }

    // The error if this many octets are not available.
    #[inline(always)]
    pub(super) fn missing(&self, count: u32) -> Error
        ensures { result ≡ (missing_refusal (self.now.position + count) self.now.end
            self.now.position).error }
    {
        missing_octets(self.position, count, self.end)
    }

    /// Enters a nested part, such as the contents of an element, that consists of the next `len`
    /// octets. Afterwards the end is the end of the part, and the depth is one greater. Returns the
    /// end and the depth from before the call, for [`Position::resume_nested`].
    ///
    /// # Errors
    ///
    /// After each of these errors the position is unchanged. If several apply, the first in this
    /// list is returned.
    ///
    /// - `NestingDepth` at the position, if the part would be nested in 64 others.
    /// - `Overflow` without a position, if the end of the part would exceed 4294967295.
    /// - `Incomplete` at the end, if the part would go beyond this end, but not beyond 4294967295.
    pub fn split_nested(&mut self, len: Length) -> Result<Resumption, Error>
        ensures { Moves (split_nested_outcome (number len)) (position_place self.old)
            (map_ok outer_place result)
            (position_place self.new) }
    {
        if self.depth >= MAX_DEPTH {
            return Err(self.error(ErrorKind::NestingDepth));
        }
        match self.part_end(u32::from(len)) {
            Ok(end) => Ok(self.enter(end)),
            Err(error) => Err(error),
        }
    }

    // The end of a nested part of this many octets.
    #[inline(always)]
    pub(super) fn part_end(&self, count: u32) -> Result<u32, Error>
        ensures { result ≡ part_end count (position_place self.now) }
    {
        let end = self.position + count as usize;
        if end > self.end as usize {
            return Err(Self::part_too_long(end, self.end));
        }
        Ok(end as u32)
    }

    // The error of a nested part that would end at `part_end`, after the end `end`.
    #[cold]
    #[inline(never)]
    fn part_too_long(part_end: usize, end: u32) -> Error
        requires { end < part_end }
        ensures { result ≡ part_error part_end end }
    {
        if part_end > u32::MAX as usize {
            ErrorKind::Overflow.to_error()
        } else {
            Error::incomplete(Length::new(end))
        }
    }

    // Enters a nested part that ends at `end`; returns the end and the depth around it.
    #[inline(always)]
    pub(super) fn enter(&mut self, end: u32) -> Resumption
        requires { self.old.depth < 64 }
        ensures outer { outer_place result ≡ (self.old.end, self.old.depth) }
        ensures inner { position_place self.new ≡ nested_place (position_place self.old) end }
    {
        let around = Resumption::new(self.input_len(), self.depth);
        self.end = end;
        self.depth += 1;
        around
    }

    /// Leaves a nested part: restores the end and the depth to those in `resumption`.
    pub fn resume_nested(&mut self, resumption: Resumption)
        ensures { position_place self.new ≡ place_at (outer_end resumption)
            (position_place self.old).position
            (outer_depth resumption) }
    {
        self.end = u32::from(resumption.input_len());
        self.depth = resumption.depth();
    }
}

// The error if this many octets are not available at a position, in an input with this end.
#[cold]
pub(crate) fn missing_octets(position: usize, count: u32, end: u32) -> Error
    requires { position < 2 ^ 32 }
    ensures { result ≡ (missing_refusal (position + count) end position).error }
{
    let following = position + count as usize;
    if following > u32::MAX as usize {
        return ErrorKind::Overflow.to_error();
    }
    let kind = ErrorKind::Incomplete {
        expected_len: Length::new(following as u32),
        actual_len: Length::new(end),
    };
    kind.at(Length::new(position as u32))
}

/// The end and the depth that a reader had before it entered a nested part (see
/// [`Reader::enter_nested`](crate::Reader::enter_nested)). They are restored when the part is left.
#[derive(Debug, Drop)]
pub struct Resumption {
    end: u32,
    depth: u8,
}

impl Resumption {
    ghost use Rattle.der_base.specs.Length.{number, definite_length};
    ghost use Rattle.der_core.specs.Resumption.{outer_end, outer_depth};

    /// Makes a `Resumption` from the end `input_len` and the depth `depth` that a reader had before
    /// it entered a nested part. Readers that keep end and depth themselves, without a
    /// [`Position`], call this function.
    pub fn new(input_len: Length, depth: u8) -> Self
        ensures end { outer_end result ≡ number input_len }
        ensures depth { outer_depth result ≡ depth }
    {
        Resumption {
            end: u32::from(input_len),
            depth,
        }
    }

    /// The end up to which the input may be read after the nested part is left.
    pub fn input_len(&self) -> Length
        ensures { result ≡ definite_length (outer_end self.now) }
    {
        Length::new(self.end)
    }

    /// The depth after the nested part is left: the number of nested parts that enclose that part.
    pub fn depth(&self) -> u8
        ensures { result ≡ outer_depth self.now }
    {
        self.depth
    }
}
