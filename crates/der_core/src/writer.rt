//! Writers of octets.
ghost use Rattle.std.specs.Prelude.{◌≡◌, Bool, true, false, [], ◌∷◌};
ghost use Rattle.der_core.specs.Writer.{WriterState, Keeps, Appends, Fits, Writes, HasSpace, write_outcome};

pub mod slice;

use der_base::Error;
pub use slice::SliceWriter;

/// A writer of octets. It has the octets written so far, the octets that follow them in its buffer,
/// and the space that is left for further writes. It may have failed.
///
/// A writer is reliable if its functions fail exactly in the cases that their contracts specify,
/// with the specified errors and positions. If several errors in the list of a function apply, a
/// reliable writer returns the first of them.
///
/// Implementors must ensure that a writer that has not failed accepts every write that fits into
/// its space. If an implementor cannot ensure this for a writer, the `state` of that writer must
/// have `failed` set from the start.
///
/// Ghost members (for proofs only):
///
/// - `state` is the meaning of the writer; see `specs/Writer.antt`. It has the `octets` written,
///   the octets `following` them in the buffer, `start` and `stop` of the part of the buffer that
///   may be written, the `capacity` of the buffer, whether the writer has `failed`, and a
///   `reference`, the identity of the buffer. If a writer has no buffer, `start` is 0 and
///   `following` is empty, and the implementor chooses values of `stop`, `capacity` and `reference`
///   that never change.
/// - `reliable` says whether the writer is reliable, as described above.
pub trait Writer {
    ghost state: { Self → WriterState };

    ghost reliable: { Bool };

    /// Appends `octets` to the octets written.
    ///
    /// # Errors
    ///
    /// A call that fails writes nothing and leaves the position unchanged.
    ///
    /// - `Failed` at the writer's position, if the writer had already failed; the writer is
    ///   unchanged.
    /// - `Overflow` at the writer's position, if `octets` would end after position 4294967295; the
    ///   writer is then failed.
    /// - `Overlength` at the position where `octets` would end, if they do not fit into the space;
    ///   the writer is then failed.
    fn write(&mut self, octets: &[u8]) -> Result<(), Error>
        ensures kept { Keeps (state self.old) (state self.new) }
        ensures ok { Appends (state self.old) octets.now result (state self.new) }
        ensures succeeds { Fits (state self.old) octets.now result }
        ensures exact { reliable ≡ true
            → Writes (write_outcome octets.now (state self.old)) result (state self.new) };

    /// Whether the writer knows that a write of `_count` octets will succeed. If the result is
    /// `true`, a short header may be written with one write instead of piece by piece. The result
    /// `false` states nothing: the write may still succeed. The default implementation always
    /// returns `false`.
    fn has_space(&self, _count: usize) -> bool
        ensures { result ≡ true → HasSpace (state self.now) _count }
    {
        false
    }

    /// Appends one octet.
    ///
    /// # Errors
    ///
    /// `Failed`, `Overflow` and `Overlength`, as by [`Writer::write`] for one octet.
    #[inline(always)]
    final fn write_byte(&mut self, octet: u8) -> Result<(), Error>
        ensures kept { Keeps (Self.state self.old) (Self.state self.new) }
        ensures ok { Appends (Self.state self.old) (octet ∷ []) result (Self.state self.new) }
        ensures succeeds { Fits (Self.state self.old) (octet ∷ []) result }
        ensures exact { Self.reliable ≡ true
            → Writes (write_outcome (octet ∷ []) (Self.state self.old)) result
            (Self.state self.new) }
    {
        self.write(&[octet])
    }
}
