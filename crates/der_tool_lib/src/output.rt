//! The output to which the program prints.
ghost use Rattle.std.specs.Prelude.{◌≡◌, ℕ, Bool, true, false, List, Option, OnOk, IsOk};
ghost use Rattle.std.specs.Io.KnownBytes.{Appends};

use std::io;

/// An output to which the program prints text. Every `io::Write` is an `Output`.
pub trait Output {
    // The octets that were written, where they are known.
    ghost contents: { Self → Option (List ℕ) };

    // Whether it never fails. Unknown for an `io::Write`.
    ghost reliable: { Bool };

    /// Writes the whole text, and flushes the output. Fails if this is not possible.
    fn put(&mut self, text: &str) -> io::Result<()>
        ensures written { OnOk result (Appends (contents self.old) (contents self.new) text.now) }
        ensures succeeds { reliable ≡ true → IsOk result };
}

impl<W: io::Write> Output for W {
    ghost contents = { W.Write.contents };

    ghost reliable = { false };

    fn put(&mut self, text: &str) -> io::Result<()> {
        self.write_all(text.as_bytes())?;
        self.flush()
    }
}
