//! Reading of contents that consist of segments (X.690 8.7.3). A segment may itself consist of
//! segments.
ghost use Rattle.std.specs.Prelude.{◌≡◌, ◌+◌, ◌^◌, ◌<◌, ◌⊎◌, ℕ, List, true, false, IfOk, IfErr, IsOk, OnOk, IsErrAnd};
ghost use Rattle.der_base.specs.Error.{error_of_kind, missing_refusal};
ghost use Rattle.der_base.specs.Length.{number};
ghost use Rattle.der_base.specs.Tag.{label};
ghost use Rattle.der_base.specs.declared.error.ErrorKind.TheVariants.{OutOfMemory as NoMemory};
ghost use Rattle.der_core.specs.AfterFirstOctet.{Stops};
ghost use Rattle.der_core.specs.Reader.{VecRefused};
ghost use Rattle.der_core.specs.ReaderState.{rest_of, Same};
ghost use Rattle.der.specs.Joined.{Joined};
ghost use Rattle.der.specs.Joining.{levels_left, AppendsJoined, AppendsOctets, JoinsAll, MayJoin, PassesSegmentHeader, RefusesJoining, RefusesSegmentHeader, RefusesSegments};

use der_base::{Error, ErrorKind, Length, Tag};
use der_core::{Header, Reader, ReaderExt, close_value, decode_header};
use std::alloc::Global;

/// Reads segments (X.690 8.7.3) from the reader's position up to the reader's end, and joins them
/// into a new vector. The segments are elements with the tag `inner_tag`, one after the other. A
/// primitive segment contributes its contents. Under the Basic Encoding Rules, a segment may also
/// be constructed, of definite or indefinite length. A constructed segment contributes the joined
/// segments inside it. Its contents are entered by [`Reader::enter_nested`], which limits the
/// nesting depth of the reader to 64.
///
/// `length` is the length of the element that contains the segments. Memory for `length` octets is
/// allocated before the first segment is read. `length` does not limit what is read. If `length` is
/// indefinite, the end-of-contents octets of that element must be after the reader's end, and this
/// function does not read them.
///
/// # Errors
///
/// - Under the Distinguished Encoding Rules, `IndefiniteLength` at the reader's position, if
///   `length` is definite; the reader has failed.
/// - `OutOfMemory` without a position, if the allocation of `length` octets fails; the reader is
///   unchanged.
/// - The errors of decoding a segment's header, as by [`Header::decode`](der_core::Header).
/// - `TagUnexpected` without a position, if a segment has a tag other than `inner_tag`; the reader
///   is after the segment's header and has not failed.
/// - Under the Distinguished Encoding Rules, `Noncanonical` with the segment's tag, at the last
///   octet of the segment's header, if a segment is constructed; the reader is after the segment's
///   header and has not failed.
/// - `Overflow`, `Incomplete` and `NestingDepth`, if a constructed segment cannot be entered, as by
///   [`Reader::enter_nested`]; the reader is after the segment's header.
/// - `Overflow` without a position, if the contents of a primitive segment would end after position
///   4294967295; the reader is after the segment's header and has not failed.
/// - `Incomplete` at the reader's position, if the contents of a primitive segment would end after
///   the reader's end, but not after position 4294967295; the reader is after the segment's header
///   and has failed.
/// - `OutOfMemory` without a position, if the allocation of a primitive segment's octets fails; the
///   reader is after the segment's header and has not failed.
///
/// After an error inside a constructed segment, the position of the reader is as stated for that
/// error. The end and the depth of the reader are those from before the call.
pub fn read_constructed_vec<R: Reader>(
    alloc: Global,
    reader: &mut R,
    length: Length,
    inner_tag: Tag,
) -> Result<Vec<u8>, Error>
    ensures same { Same (R.state reader.old) (R.state reader.new) }
    ensures ok { IfOk result (λ v. JoinsAll length inner_tag (R.state reader.old) v.items
        (R.state reader.new)) }
    ensures complete { (out : List ℕ) → R.reliable ≡ true → (R.state reader.old).failed ≡ false
        → MayJoin length (R.state reader.old).rules
        → Joined inner_tag (levels_left (R.state reader.old)) (rest_of (R.state reader.old)) out
        → IsOk result ⊎ IsErrAnd result (λ e. e ≡ error_of_kind NoMemory) }
    ensures exact { R.reliable ≡ true
        → IfErr result (λ e. RefusesJoining length inner_tag (R.state reader.old) e
        (R.state reader.new)) }
{
    number_fits(inner_tag);
    if !reader.encoding_rules().is_ber() && !length.is_indefinite() {
        return Err(reader.error(ErrorKind::IndefiniteLength));
    }
    let mut out = match Vec::with_capacity(alloc, u32::from(length) as usize) {
        Ok(out) => out,
        Err(_) => return Err(ErrorKind::OutOfMemory.to_error()),
    };
    append_segments(reader, inner_tag, &mut out)?;
    Ok(out)
}

// Does nothing. Its contract states, for the proofs of its callers, that a tag number fits in 32
// bits.
fn number_fits(tag: Tag)
    ensures { (label tag).number < 2 ^ 32 }
{
    let _ = tag.number().value();
}

// Appends the joined segments up to the end.
fn append_segments<R: Reader>(
    reader: &mut R,
    inner_tag: Tag,
    out: &mut Vec<u8>,
) -> Result<(), Error>
    ensures same { Same (R.state reader.old) (R.state reader.new) }
    ensures ok { OnOk result (AppendsJoined inner_tag (levels_left (R.state reader.old))
        (R.state reader.old) out.old.items out.new.items (R.state reader.new)) }
    ensures to_the_end { OnOk result ((R.state reader.new).end ≡ (R.state reader.new).position) }
    ensures exact { R.reliable ≡ true
        → IfErr result (λ e. RefusesSegments inner_tag (R.state reader.old) e
        (R.state reader.new)) }
{
    'segments: while !reader.is_finished() {
        let header = segment_header(reader, inner_tag)?;
        if header.is_constructed() {
            let length = header.length().sans_eoc();
            let outer = reader.enter_nested(length)?;
            let answer = append_segments(reader, inner_tag, out);
            close_value(reader, length, outer, answer)?;
        } else {
            append_octets(reader, header.length(), out)?;
        }
    }
    Ok(())
}

/// Reads the header of the next segment of a constructed string (X.690 8.7.3). The tag of the
/// segment must be `inner_tag`. Under the Distinguished Encoding Rules, the segment must be
/// primitive.
///
/// # Errors
///
/// - The errors of [`decode_header`].
/// - `TagUnexpected` without a position, with `inner_tag` as the expected tag, if the segment has
///   another tag; the reader is after the header.
/// - Under the Distinguished Encoding Rules, `Noncanonical` with the tag of the segment, at the
///   last octet of its header, if the segment is constructed; the reader is after the header.
pub fn segment_header<R: Reader>(reader: &mut R, inner_tag: Tag) -> Result<Header, Error>
    ensures same { Same (R.state reader.old) (R.state reader.new) }
    ensures ok { IfOk result (λ h. PassesSegmentHeader inner_tag h (R.state reader.old)
        (R.state reader.new)) }
    ensures exact { R.reliable ≡ true
        → IfErr result (λ e. RefusesSegmentHeader inner_tag (R.state reader.old) e
        (R.state reader.new)) }
{
    let header = decode_header(reader)?;
    header.tag().assert_eq(inner_tag)?;
    if header.is_constructed() && !reader.encoding_rules().is_ber() {
        let at = reader.position().saturating_sub(Length::ONE);
        return Err(header.tag().non_canonical_error().at(at));
    }
    Ok(header)
}

// Appends the next `len` octets. Allocates only after it has checked that they are available.
fn append_octets<R: Reader>(reader: &mut R, len: Length, out: &mut Vec<u8>) -> Result<(), Error>
    ensures same { Same (R.state reader.old) (R.state reader.new) }
    ensures ok { OnOk result (AppendsOctets (number len) (R.state reader.old) out.old.items
        out.new.items (R.state reader.new)) }
    ensures exact { R.reliable ≡ true → (R.state reader.old).failed ≡ false
        → IfErr result (λ e. VecRefused (number len) (R.state reader.old) e
        (R.state reader.new)) }
{
    let count = u32::from(len);
    if u32::from(reader.remaining_len()) < count {
        return Err(missing(reader, len));
    }
    let before = out.len();
    let end = before + count as usize;
    match out.resize(end, 0) {
        Ok(()) => {}
        Err(_) => return Err(ErrorKind::OutOfMemory.to_error()),
    }
    reader.read_into(&mut out[before..])
}

// The error for `len` octets that are not available.
fn missing<R: Reader>(reader: &mut R, len: Length) -> Error
    ensures same { Same (R.state reader.old) (R.state reader.new) }
    ensures exact { Stops (R.state reader.old)
        (missing_refusal ((R.state reader.old).position + number len) (R.state reader.old).end
        (R.state reader.old).position) result (R.state reader.new) }
{
    match reader.position() + len {
        Ok(expected_len) => {
            let kind = ErrorKind::Incomplete {
                expected_len,
                actual_len: reader.input_len(),
            };
            reader.error(kind)
        }
        Err(error) => error,
    }
}
