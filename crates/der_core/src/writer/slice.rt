//! A writer into a slice.
ghost use Rattle.std.specs.Prelude.{◌≡◌, ◌+◌, ◌-◌, ◌^◌, ◌<◌, ◌≤◌, true, length, Err, IfOk, OnErr};
ghost use Rattle.der_base.specs.Error.{error_at, position_of};
ghost use Rattle.der_base.specs.Length.{definite_length};
ghost use Rattle.der_base.specs.declared.error.ErrorKind.TheVariants.{Failed, Length as IncorrectLength};
ghost use Rattle.der_base.specs.declared.tag.Tag.TheVariants.{Sequence};
ghost use Rattle.der_core.specs.Encode.{placed_error};
ghost use Rattle.der_core.specs.Writer.{space_error};

use crate::encode::Encode;
use crate::header::Header;
use crate::writer::Writer;
use der_base::{Error, ErrorKind, Length, Tag};

/// A writer into a slice. Allocates nothing and writes at most 4294967295 octets. The octets of the
/// slice after those written are unchanged.
///
/// After an error the writer is failed, and every further write fails.
#[derive(Debug, Drop)]
pub struct SliceWriter<'a> {
    bytes: &'a mut [u8],
    // the part of the slice that may be written
    start: usize,
    stop: usize,
    // the number of octets written into that part
    position: u32,
    failed: bool,
    ghost ordered: { start + position ≤ stop },
    ghost within: { stop ≤ length bytes.now },
    ghost countable: { stop < start + 2 ^ 32 },
}

impl<'a> SliceWriter<'a> {
    ghost use Rattle.der_base.specs.Length.{number};
    ghost use Rattle.der_core.specs.Outcome.{map_ok};
    ghost use Rattle.der_core.specs.Writer.{Keeps, Appends, HasSpace, appended_state, Writes, fresh_state, writer_position, failed_state, space_outcome};
    ghost use Rattle.der_core.specs.Encode.{FitsCounted, RefusesFailed, PlacesErrors, finished_answer};
    ghost use Rattle.der_core.specs.Before.{Certain, inner_state};
    ghost use Rattle.der_core.specs.SliceWriter.{slice_writer_state};
    ghost use Rattle.der_core.specs.WrittenSequence.{RestoresWriter, ClosesPart, Fills, RunsIfSpace, PartAnswer, SequenceAnswer, headed_state, part_state, outer_state};

    /// A writer into `bytes`, at their start.
    pub fn new(bytes: &'a mut [u8]) -> Self
        ensures { slice_writer_state result ≡ fresh_state bytes.old bytes.entry.ghost_name }
    {
        let stop = bytes.len().min(u32::MAX as usize);
        SliceWriter {
            bytes,
            start: 0,
            stop,
            position: 0,
            failed: false,
        }
    }

    // A writer into `count` octets of `bytes`, from index `start` on.
    pub(crate) fn within(bytes: &'a mut [u8], start: usize, count: usize) -> Self
        requires inside { start + count ≤ length bytes.now }
        requires countable { count < 2 ^ 32 }
        ensures { slice_writer_state result ≡ inner_state bytes.old bytes.entry.ghost_name start
            count }
    {
        SliceWriter {
            bytes,
            start,
            stop: start + count,
            position: 0,
            failed: false,
        }
    }

    /// Whether the writer has failed.
    pub fn is_failed(&self) -> bool
        ensures { result ≡ (slice_writer_state self.now).failed }
    {
        self.failed
    }

    // The number of octets written into the part of the slice that may be written.
    fn position(&self) -> Length
        ensures { result ≡ writer_position (slice_writer_state self.now) }
    {
        Length::new(self.position)
    }

    /// Returns `Err` with an error of the kind `kind` at the writer's position. The writer is then
    /// failed.
    ///
    /// # Errors
    ///
    /// - An error of the kind `kind` at the writer's position, on every call.
    pub fn error<T>(&mut self, kind: ErrorKind) -> Result<T, Error>
        ensures at_position { result ≡ Err
            (error_at kind (writer_position (slice_writer_state self.old))) }
        ensures failed { slice_writer_state self.new ≡ failed_state (slice_writer_state self.old) }
    {
        self.failed = true;
        Err(kind.at(self.position()))
    }

    /// Ends writing, consumes the writer and returns the octets written.
    ///
    /// # Errors
    ///
    /// - `Failed` at the writer's position, if the writer had already failed.
    pub fn finish(self) -> Result<&'a [u8], Error>
        ensures { map_ok (λ r. r.now) result ≡ finished_answer (slice_writer_state self.entry) }
    {
        if self.failed {
            return Err(ErrorKind::Failed.at(self.position()));
        }
        let end = self.start + self.position as usize;
        let bytes = self.bytes;
        Ok(&bytes[..end])
    }

    /// Writes the encoding of `value`.
    ///
    /// # Errors
    ///
    /// - `Failed` at the writer's position, if the writer had already failed; the writer is
    ///   unchanged.
    /// - Those of [`Encode::encode`] of `value`. An error without a position gets the position of
    ///   the writer; octets written earlier remain, and the writer is then failed.
    #[inline(always)]
    pub fn encode<T: Encode>(&mut self, value: &T) -> Result<(), Error>
        ensures kept { Keeps (slice_writer_state self.old) (slice_writer_state self.new) }
        ensures ok { Appends (slice_writer_state self.old) (T.encoding value.now) result
            (slice_writer_state self.new) }
        ensures succeeds { T.encodable value.now
            → FitsCounted (slice_writer_state self.old) (T.encoding value.now) result }
        ensures was_failed { RefusesFailed (slice_writer_state self.old) result
            (slice_writer_state self.new) }
        ensures exact { PlacesErrors (T.encode_answers value.now) (slice_writer_state self.old)
            result (slice_writer_state self.new) }
    {
        if self.failed {
            return Err(failed_at(self.position));
        }
        if let Some(count) = value.len_before()
            && self.has_space(count as usize)
        {
            self.append_before(value, count);
            return Ok(());
        }
        if let Err(error) = value.encode(self) {
            self.failed = true;
            return Err(placed(error, self.position));
        }
        Ok(())
    }

    // Writes a value of `count` octets from the end of these octets.
    #[inline(always)]
    fn append_before<T: Encode>(&mut self, value: &T, count: u32)
        requires certain { Certain (T.encodable value.now) (T.size value.now)
            (T.encode_answers value.now) (T.encoding value.now) count }
        requires space { HasSpace (slice_writer_state self.old) count }
        ensures { slice_writer_state self.new
            ≡ appended_state (slice_writer_state self.old) (T.encoding value.now) }
    {
        let from = self.start + self.position as usize;
        let _ = value.encode_before(&mut self.bytes[from..], count);
        self.position += count;
    }

    /// Writes the header of a SEQUENCE (X.690 8.9) and lets `f` write the contents. `f` gets this
    /// writer limited to the next `len` octets, with position 0 at the first of them, and not
    /// failed. Afterwards the writer has its previous limits again, whatever `f` returned.
    ///
    /// The caller must ensure two things for every writer that is limited to those octets:
    ///
    /// - The requirements of `f` hold for that writer.
    /// - `f` leaves unchanged the slice and the limits of that writer, the octets before its start,
    ///   and the octets of the slice after those written. A failed writer stays failed.
    ///
    /// # Errors
    ///
    /// After each of these errors the writer is failed; if `f` was called, the position is after
    /// the contents. If several apply, the first is returned.
    ///
    /// - `Failed` at the writer's position, if the writer had already failed; the writer is
    ///   unchanged.
    /// - `Overflow` at the position of the write, if the header, or the contents after it, would
    ///   end after position 4294967295.
    /// - `Overlength` at the position where the header or the contents would end, if there is no
    ///   space for the header, or for the contents after it; the octets of the header that were
    ///   written remain.
    /// - The error of `f`, unchanged.
    /// - `Failed` at the position within the contents, if `f` returns `Ok` but leaves its writer
    ///   failed.
    /// - `Length` with the tag SEQUENCE at the position after the contents, if `f` writes fewer
    ///   than `len` octets.
    #[inline(always)]
    pub fn sequence<F: FnOnce(&mut SliceWriter<'a>) -> Result<(), Error>>(
        &mut self,
        len: Length,
        f: F,
    ) -> Result<(), Error>
        requires { RestoresWriter (F.pre f) (F.post f)
            (headed_state (slice_writer_state self.old) (number len)) (number len) }
        ensures kept { Keeps (slice_writer_state self.old) (slice_writer_state self.new) }
        ensures ok { Fills (F.post f)
            (headed_state (slice_writer_state self.old) (number len)) (number len) result
            (slice_writer_state self.new) }
        ensures runs { RunsIfSpace (F.post f)
            (headed_state (slice_writer_state self.old) (number len)) (number len) result
            (slice_writer_state self.new) }
        ensures exact { SequenceAnswer (F.post f) (slice_writer_state self.old)
            (number len) result (slice_writer_state self.new) }
    {
        Header::new(Tag::Sequence, len).encode(self)?;
        self.fill_part(len, f)
    }

    // Reserves this many octets and lets `f` write them.
    #[inline(always)]
    fn fill_part<F: FnOnce(&mut SliceWriter<'a>) -> Result<(), Error>>(
        &mut self,
        len: Length,
        f: F,
    ) -> Result<(), Error>
        requires { RestoresWriter (F.pre f) (F.post f) (slice_writer_state self.old)
            (number len) }
        ensures kept { Keeps (slice_writer_state self.old) (slice_writer_state self.new) }
        ensures ok { Fills (F.post f) (slice_writer_state self.old) (number len) result
            (slice_writer_state self.new) }
        ensures runs { RunsIfSpace (F.post f) (slice_writer_state self.old) (number len) result
            (slice_writer_state self.new) }
        ensures exact { PartAnswer (F.post f) (slice_writer_state self.old) (number len) result
            (slice_writer_state self.new) }
    {
        let (start, stop) = (self.start, self.stop);
        self.set_apart(len)?;
        let answer = f(self);
        self.close_part(start, stop, answer)
    }

    // Limits the writer to the next `len` octets, if there is space for them.
    #[inline(always)]
    fn set_apart(&mut self, len: Length) -> Result<(), Error>
        ensures refused { OnErr result
            (Keeps (slice_writer_state self.old) (slice_writer_state self.new)) }
        ensures exact { Writes (space_outcome (number len) (slice_writer_state self.old)
            (part_state (slice_writer_state self.old) (number len))) result
            (slice_writer_state self.new) }
    {
        let count = u32::from(len) as usize;
        let from = self.start + self.position as usize;
        if self.failed || count > self.stop - from {
            return Err(self.refuse(count));
        }
        self.start = from;
        self.stop = from + count;
        self.position = 0;
        Ok(())
    }

    // Restores the writer's previous limits and moves it after the reserved octets. `answer` is the
    // result of writing these: its error is returned, otherwise an error if the writer failed or
    // did not fill them.
    #[inline(always)]
    fn close_part(
        &mut self,
        start: usize,
        stop: usize,
        answer: Result<(), Error>,
    ) -> Result<(), Error>
        requires before { start ≤ self.old.start }
        requires following { self.old.stop ≤ stop }
        requires within { stop ≤ length self.old.bytes.now }
        requires countable { stop < start + 2 ^ 32 }
        ensures { ClosesPart (outer_state (slice_writer_state self.old) start stop)
            (self.old.stop - self.old.start) (slice_writer_state self.old)
            (slice_writer_state self.new) answer result }
    {
        let (filled, count) = (self.position, (self.stop - self.start) as u32);
        self.position = (self.stop - start) as u32;
        self.start = start;
        self.stop = stop;
        match answer {
            Ok(()) => {
                if self.failed {
                    return Err(failed_at(filled));
                }
                if filled < count {
                    self.failed = true;
                    return Err(unfilled_at(self.position));
                }
                Ok(())
            }
            Err(error) => {
                self.failed = true;
                Err(error)
            }
        }
    }

    // The error of a write of `count` octets for which there is no space, or by a writer that had
    // already failed; the writer is then failed.
    #[inline(always)]
    fn refuse(&mut self, count: usize) -> Error
        ensures reported { result ≡ space_error self.old.failed self.old.position count }
        ensures failed { slice_writer_state self.new ≡ failed_state (slice_writer_state self.old) }
    {
        let failed = self.failed;
        self.failed = true;
        refusal(failed, self.position, count)
    }
}

/// A reliable writer (see [`Writer`]): it fails exactly as [`Writer::write`] specifies.
impl<'a> Writer for SliceWriter<'a> {
    ghost use Rattle.der_core.specs.SliceWriter.{slice_writer_state};

    ghost state = { slice_writer_state };

    ghost reliable = { true };

    #[inline(always)]
    fn write(&mut self, octets: &[u8]) -> Result<(), Error> {
        let from = self.start + self.position as usize;
        if self.failed || octets.len() > self.stop - from {
            return Err(self.refuse(octets.len()));
        }
        self.bytes[from..from + octets.len()].copy_from_slice(octets);
        self.position += octets.len() as u32;
        Ok(())
    }

    #[inline(always)]
    fn has_space(&self, count: usize) -> bool {
        !self.failed && count <= self.stop - (self.start + self.position as usize)
    }
}

// The error of a write of `count` octets at a position after which there is no space for them, or
// by a writer that had already failed.
#[cold]
#[inline(never)]
fn refusal(failed: bool, position: u32, count: usize) -> Error
    ensures { result ≡ space_error failed position count }
{
    if failed {
        return failed_at(position);
    }
    if count > (u32::MAX - position) as usize {
        return ErrorKind::Overflow.at(Length::new(position));
    }
    ErrorKind::Overlength.at(Length::new(position + count as u32))
}

// The error of a writer that had already failed.
#[cold]
#[inline(never)]
fn failed_at(position: u32) -> Error
    ensures { result ≡ error_at Failed (definite_length position) }
{
    ErrorKind::Failed.at(Length::new(position))
}

// The error of a SEQUENCE whose contents are not filled and end at this position.
#[cold]
#[inline(never)]
fn unfilled_at(position: u32) -> Error
    ensures { result ≡ error_at (IncorrectLength Sequence) (definite_length position) }
{
    Tag::Sequence.length_error().at(Length::new(position))
}

// An error with its position, or with this one if it has none. It is inlined: an error that is
// passed to a call is copied as a whole, even if there is none.
#[inline(always)]
fn placed(error: Error, position: u32) -> Error
    ensures { result ≡ placed_error (position_of error) (definite_length position) error }
{
    match error.position() {
        Some(_) => error,
        None => error.kind().at(Length::new(position)),
    }
}
