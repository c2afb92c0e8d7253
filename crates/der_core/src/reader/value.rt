//! Reading the contents of an element by a function that the caller passes.
ghost use Rattle.std.specs.Prelude.{◌≡◌};
ghost use Rattle.der_base.specs.Arithmetic.{sans_eoc};
ghost use Rattle.der_base.specs.Length.{number, is_indefinite};
ghost use Rattle.der_core.specs.ReaderState.{Same, resumed_state};
ghost use Rattle.der_core.specs.Outcome.{Meets, IsBinding};
ghost use Rattle.der_core.specs.Reader.{read_eoc_outcome, read_zero_octet_outcome};
ghost use Rattle.der_core.specs.Resumption.{outer_end, outer_depth};
ghost use Rattle.der_core.specs.Header.{head_of, header_sans_eoc};
ghost use Rattle.der_core.specs.Nested.{CanLeave, ClosesValue, RestoresReader, ValueAnswer};

use crate::header::Header;
use crate::reader::{Reader, ReaderExt, Resumption};
use der_base::{Error, ErrorKind, Length};

/// Reads the end-of-contents octets of an indefinite length, two zero octets (X.690 8.1.5).
///
/// # Errors
///
/// - `Failed` at the reader's position, if the reader had already failed; the reader is unchanged.
/// - `IndefiniteLength` at the position after the first nonzero octet; the reader is there and
///   failed.
/// - `Overflow` without a position, if an octet is missing at position 4294967295; the reader is
///   there and has not failed.
/// - `Incomplete` at the end, if an octet is missing at any other position; the reader is there and
///   failed.
#[inline(always)]
pub fn read_eoc<R: Reader>(reader: &mut R) -> Result<(), Error>
    ensures same { Same (R.state reader.old) (R.state reader.new) }
    ensures exact { Meets R.reliable read_eoc_outcome (R.state reader.old) result
        (R.state reader.new) }
{
    read_zero_octet(reader)?;
    read_zero_octet(reader)
}

// One of the two end-of-contents octets.
#[inline(always)]
pub(crate) fn read_zero_octet<R: Reader>(reader: &mut R) -> Result<(), Error>
    ensures same { Same (R.state reader.old) (R.state reader.new) }
    ensures exact { Meets R.reliable read_zero_octet_outcome (R.state reader.old) result
        (R.state reader.new) }
{
    let octet = reader.read_byte()?;
    if octet != 0 {
        return Err(reader.error(ErrorKind::IndefiniteLength));
    }
    Ok(())
}

/// Leaves the contents of an element: restores the reader's end and depth to those in `outer`.
/// Returns `answer`, the result of reading the contents. If `answer` is `Ok`, contents octets left
/// unread are an error. If `length` was read in the indefinite form, the end-of-contents octets are
/// then read.
///
/// The caller must ensure that the end in `outer` is neither before the position nor after the end
/// of the input, and that the depth in `outer` is at most 64. What [`Reader::enter_nested`]
/// returned for these contents satisfies both conditions.
///
/// # Errors
///
/// After each of these errors the reader has the end and the depth in `outer`.
///
/// - The error in `answer`, unchanged; the reader does not move.
/// - `TrailingData` at the reader's position, if octets are left in the contents; the reader is
///   then failed.
/// - `Failed`, `IndefiniteLength`, `Incomplete` and `Overflow` of the end-of-contents octets, as by
///   [`read_eoc`].
#[inline(always)]
pub fn close_value<R: Reader, T: Drop, E: From<Error> + Drop>(
    reader: &mut R,
    length: Length,
    outer: Resumption,
    answer: Result<T, E>,
) -> Result<T, E>
    requires { CanLeave (R.state reader.old) (outer_end outer) (outer_depth outer) }
    ensures same { Same (resumed_state (R.state reader.old) (outer_end outer) (outer_depth outer))
        (R.state reader.new) }
    ensures exact { IsBinding R.reliable result
        → ClosesValue E.from_gives answer (R.state reader.old) (outer_end outer) (outer_depth outer)
        (is_indefinite length) result (R.state reader.new) }
{
    let value = reader.close_nested(outer, answer)?;
    if !length.is_indefinite() {
        return Ok(value);
    }
    read_eoc(reader)?;
    Ok(value)
}

/// Reads the contents after `header`. Calls `f` with the reader inside the contents, and with a
/// copy of `header` whose length does not count end-of-contents octets. Returns the result of `f`.
/// Contents octets that `f` leaves unread are an error. If the length was read in the indefinite
/// form, the end-of-contents octets are then read.
///
/// The caller must ensure two things:
///
/// - The requirements of `f` hold for this reader inside the contents, and for the header that `f`
///   gets. The caller may assume that the contents do not exceed the end and are nested in fewer
///   than 64 parts.
/// - `f` leaves the reader's input, rules, end and depth unchanged. It does not move the reader
///   backwards, and a failed reader stays failed.
///
/// # Errors
///
/// - `Overflow`, `Incomplete` and `NestingDepth`, if the contents cannot be entered, as by
///   [`Reader::enter_nested`].
/// - The error of `f`; the reader is where `f` left it, with its previous end and depth.
/// - `TrailingData` at the reader's position, if `f` leaves octets unread; the reader is then
///   failed.
/// - `Failed`, `IndefiniteLength`, `Incomplete` and `Overflow` of the end-of-contents octets, as by
///   [`read_eoc`].
#[inline(always)]
pub fn read_value<
    R: Reader,
    T: Drop,
    E: From<Error> + Drop,
    F: FnOnce(&mut R, Header) -> Result<T, E>,
>(reader: &mut R, header: Header, f: F) -> Result<T, E>
    requires { RestoresReader (λ p. F.pre f p (header_sans_eoc header)) (λ p a q. (h : _)
        × (h ≡ header_sans_eoc header)
        × F.post f p h a q) (λ p. R.state p.now) (λ q. R.state q.now) (R.state reader.old)
        (number (sans_eoc (head_of header).length)) }
    ensures same { Same (R.state reader.old) (R.state reader.new) }
    ensures exact { IsBinding R.reliable result
        → ValueAnswer E.from_gives (λ p a q. (h : _) × (h ≡ header_sans_eoc header)
        × F.post f p h a q) (λ p. R.state p.now) (λ q. R.state q.now)
        (sans_eoc (head_of header).length) (R.state reader.old) result (R.state reader.new) }
{
    let contents = header.contents();
    let length = contents.length();
    let outer = reader.enter_nested(length)?;
    let answer = f(reader, contents);
    close_value(reader, length, outer, answer)
}

// Reads this many contents octets by a closure that does not need the header.
#[inline(always)]
pub(crate) fn read_contents<
    R: Reader,
    T: Drop,
    E: From<Error> + Drop,
    F: FnOnce(&mut R) -> Result<T, E>,
>(reader: &mut R, length: Length, f: F) -> Result<T, E>
    requires { RestoresReader (F.pre f) (F.post f) (λ p. R.state p.now) (λ q. R.state q.now)
        (R.state reader.old) (number length) }
    ensures same { Same (R.state reader.old) (R.state reader.new) }
    ensures exact { IsBinding R.reliable result
        → ValueAnswer E.from_gives (F.post f) (λ p. R.state p.now) (λ q. R.state q.now) length
        (R.state reader.old) result (R.state reader.new) }
{
    let outer = reader.enter_nested(length)?;
    let answer = f(reader);
    close_value(reader, length, outer, answer)
}
