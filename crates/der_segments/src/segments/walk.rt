//! Iteration over the primitive segments of an OCTET STRING whose segments were checked before. The
//! headers of constructed segments and the end-of-contents octets are skipped. Levels of nesting
//! are not counted.
ghost use Rattle.std.specs.Prelude.{◌≡◌, ◌<◌, ℕ, List, [], false, true, OnOk, IsOkAnd, MatchOption};
ghost use Rattle.der.specs.Prelude.{rest_of, Same, slice_state};
ghost use Rattle.der_segments.specs.Pieces.{InPieces};
ghost use Rattle.der_segments.specs.Walk.{GivesPiece, IsAtMark, IsAtPiece, IsShortMark, KeepsPieces};

use der::{Error, Reader, ReaderExt, SliceReader, decode_length};

// the identifier octet of a primitive segment
const PRIMITIVE: u8 = 0x04;

// the length octet of the indefinite form
const INDEFINITE: u8 = 0x80;

// Reads the next primitive segment, and returns its contents; `None` if none is left.
pub(crate) fn next_piece<'a>(reader: &mut SliceReader<'a>) -> Result<Option<&'a [u8]>, Error>
    requires { (slice_state reader.old).failed ≡ false }
    ensures working { OnOk result ((slice_state reader.new).failed ≡ false) }
    ensures gives { (pieces : List (List ℕ)) → InPieces (rest_of (slice_state reader.old)) pieces
        → IsOkAnd result (λ r. MatchOption r
        ((pieces ≡ []) × InPieces (rest_of (slice_state reader.new)) [])
        (λ x. GivesPiece pieces x.now (slice_state reader.new))) }
{
    pass_marks(reader)?;
    if reader.is_finished() {
        return Ok(None);
    }
    reader.read_byte()?;
    let length = decode_length(reader)?;
    let piece = reader.read_slice(length)?;
    Ok(Some(piece))
}

// Passes end-of-contents octets and headers of constructed segments, up to a primitive one.
fn pass_marks(reader: &mut SliceReader<'_>) -> Result<(), Error>
    requires { (slice_state reader.old).failed ≡ false }
    ensures same { Same (slice_state reader.old) (slice_state reader.new) }
    ensures working { OnOk result ((slice_state reader.new).failed ≡ false) }
    ensures keeps { KeepsPieces (slice_state reader.old) result (slice_state reader.new) }
    ensures stops { OnOk result (IsAtPiece (rest_of (slice_state reader.new))) }
{
    'marks: while is_at_mark(reader) {
        pass_mark(reader)?;
    }
    Ok(())
}

// Whether end-of-contents octets or the header of a constructed segment are next.
fn is_at_mark(reader: &SliceReader<'_>) -> bool
    requires { (slice_state reader.now).failed ≡ false }
    ensures mark { result ≡ true → IsAtMark (rest_of (slice_state reader.now)) }
    ensures piece { result ≡ false → IsAtPiece (rest_of (slice_state reader.now)) }
{
    match reader.peek_byte() {
        Some(octet) => octet != PRIMITIVE,
        None => false,
    }
}

// Passes end-of-contents octets or the header of a constructed segment.
fn pass_mark(reader: &mut SliceReader<'_>) -> Result<(), Error>
    requires working { (slice_state reader.old).failed ≡ false }
    requires mark { IsAtMark (rest_of (slice_state reader.old)) }
    ensures same { Same (slice_state reader.old) (slice_state reader.new) }
    ensures forward { OnOk result
        ((slice_state reader.old).position < (slice_state reader.new).position) }
    ensures working { OnOk result ((slice_state reader.new).failed ≡ false) }
    ensures keeps { KeepsPieces (slice_state reader.old) result (slice_state reader.new) }
{
    let first = reader.read_byte()?;
    if is_short_mark(reader, first) {
        reader.read_byte()?;
    } else {
        decode_length(reader)?;
    }
    Ok(())
}

// Whether one octet follows the first octet of a mark: the second of the end-of-contents octets, or
// the indefinite form of a length.
fn is_short_mark(reader: &SliceReader<'_>, first: u8) -> bool
    requires { (slice_state reader.now).failed ≡ false }
    ensures short { result ≡ true → IsShortMark first (rest_of (slice_state reader.now)) }
    ensures long { result ≡ false → IsShortMark first (rest_of (slice_state reader.now)) → ⊥ }
{
    if first == 0 {
        return true;
    }
    match reader.peek_byte() {
        Some(octet) => octet == INDEFINITE,
        None => false,
    }
}
